//! Plays a scenario, calls in a fixed order, on one layer of the cache, and prints each result.
#![tactic(auto)]

mod answer;
mod line;
mod on_cache;
mod on_callers;
mod on_core;
mod on_shards;
mod player;
mod settings;
mod source;
mod words;

use line::Scenario;
use player::{Layer, play};
use settings::Settings;
use std::alloc::Global;
use std::io::{Input, Print};
use std::sync::Wait;

// The layer that the first argument names.
fn layer_of(words: &[String]) -> Option<Layer> {
    match words.get(1)?.as_str() {
        "core" => Some(Layer::Core),
        "shards" => Some(Layer::Shards),
        "cache" => Some(Layer::Cache),
        "callers" => Some(Layer::Callers),
        _ => None,
    }
}

// Reads the scenario, and returns the number of the first line that is none, or 0.
fn read<R: Input>(rt: &R, alloc: Global, scenario: &mut Scenario) -> anyhow::Result<u64> {
    let mut number: u64 = 0;
    for text in rt.lines(alloc) {
        number = number.wrapping_add(1);
        if !scenario.read(alloc, text?.as_str())? {
            return Ok(number);
        }
    }
    Ok(0)
}

// Reads the scenario and plays it.
fn run<R: Input + Print + Wait>(rt: &R, alloc: Global, layer: Layer) -> anyhow::Result<()> {
    let mut scenario = Scenario {
        settings: Settings::new(),
        lines: Vec::new(alloc),
    };
    let number = read(rt, alloc, &mut scenario)?;
    if number > 0 {
        println!(rt; "line {number} is no line of a scenario")?;
        return Ok(());
    }
    let Scenario { settings, lines } = scenario;
    play(rt, alloc, layer, &settings, lines)
}

fn main(rt: HostRuntime) -> anyhow::Result<()> {
    let alloc = rt.alloc();
    let words: Vec<String> = std::env::args(&rt)?.collect(alloc)?;
    match layer_of(words.as_slice()) {
        Some(layer) => run(&rt, alloc, layer),
        None => {
            println!(rt; "name a layer: core, shards, cache or callers")?;
            Ok(())
        }
    }
}
