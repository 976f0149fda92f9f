// Which layer plays the lines.
ghost use Rattle.std.specs.Prelude.{◌≡◌};
ghost use Rattle.wt_shards.specs.Opening.{AreBlanksOf};

use crate::line::Line;
use crate::on_cache::play_on_cache;
use crate::on_callers::play_on_callers;
use crate::on_core::play_on_core;
use crate::on_shards::play_on_shards;
use crate::settings::Settings;
use std::alloc::Global;
use std::io::Print;
use std::marker::Brand;
use std::sync::Wait;
use wt_core::Config;
use wt_shards::{Blanks, Names, Of, Shards};
use wt_tests::Loaded;

/// A layer.
#[derive(Clone, Copy, Debug)]
pub enum Layer {
    /// A `Core`.
    Core,
    /// `Shards`, with one pass.
    Shards,
    /// A `LoadingCache`, with one pass.
    Cache,
    /// A `LoadingCache`, with callers that are lent.
    Callers,
}

/// Plays the lines on a layer.
pub fn play<R: Print + Wait>(
    rt: &R,
    alloc: Global,
    layer: Layer,
    settings: &Settings,
    lines: Vec<Line>,
) -> anyhow::Result<()> {
    let Layer::Core = layer else {
        let (config, shards) = (&settings.config, settings.shards);
        return play_shared::<Brand, R>(rt, alloc, Blanks::new(), config, shards, layer, lines);
    };
    play_on_core(rt, alloc, &settings.config, lines)
}

// The same on a layer that threads share, over books of these names.
fn play_shared<N: Names, R: Print + Wait>(
    rt: &R,
    alloc: Global,
    blanks: Blanks<u64, Loaded>,
    config: &Config,
    shards: usize,
    layer: Layer,
    lines: Vec<Line>,
) -> anyhow::Result<()>
    requires layout { N.layout ≡ record { shards = shards; config = config.now } }
    requires blanks { AreBlanksOf N.name N.book blanks }
{
    let made: Shards<u64, Loaded, Of<N>> = Shards::new(rt, alloc, blanks, config, shards)?;
    match layer {
        Layer::Cache => play_on_cache(rt, alloc, made, lines),
        Layer::Callers => play_on_callers(rt, alloc, made, lines),
        _ => play_on_shards(rt, alloc, &made, lines),
    }
}
