// An entry that is due is served at once, and loaded again beside it.
use std::alloc::Global;
use std::io::Print;
use wt_core::{Config, Core, Land, Measure, Notices, Reply, Weighs};
use wt_keys::{NoMemory, Share};

/// A rate, and when it was asked for.
#[derive(Clone, Copy)]
struct Rate {
    asked: u64,
}

impl Share for Rate {
    fn share(&self) -> Result<Rate, NoMemory> {
        Ok(*self)
    }
}

impl Weighs for Rate {
    ghost measure = { λ _. record { weight = 1; life = 0 } };

    fn measure(&self) -> Measure {
        Measure::lasting(1)
    }
}

// Seeks the rate of currency 7, prints it, and returns the load that the seek opened.
fn seek<R: Print>(
    rt: &R,
    alloc: Global,
    cache: &mut Core<u64, Rate>,
    now: u64,
) -> anyhow::Result<Option<u64>> {
    let mut left = Notices::new(alloc, cache.entries() as usize)?;
    match cache.seek(7, now, &mut left)? {
        Reply::Hit(rate) => {
            println!(rt; "{now}: the rate of {}", rate.asked)?;
            Ok(None)
        }
        Reply::HitLead(rate, load) => {
            println!(rt; "{now}: the rate of {}, and it is due", rate.asked)?;
            Ok(Some(load))
        }
        Reply::Lead(load) => Ok(Some(load)),
        _ => Ok(None),
    }
}

// Lands a load with the rate of this moment.
fn land<R: Print>(
    rt: &R,
    alloc: Global,
    cache: &mut Core<u64, Rate>,
    load: u64,
    now: u64,
) -> anyhow::Result<()> {
    let mut left = Notices::new(alloc, cache.entries() as usize)?;
    cache.land(load, 7, Land::Keep(Rate { asked: now }), now, &mut left)?;
    println!(rt; "{now}: load {load} has landed")?;
    Ok(())
}

fn ask<R: Print>(rt: &R, alloc: Global, cache: &mut Core<u64, Rate>) -> anyhow::Result<()> {
    for now in [0, 10, 60, 61] {
        if let Some(load) = seek(rt, alloc, cache, now)? {
            land(rt, alloc, cache, load, now)?;
        }
    }
    Ok(())
}

/// Asks for a rate at four moments, and prints what is served and loaded.
pub fn show<R: Print>(rt: &R, alloc: Global) -> anyhow::Result<()> {
    let config = Config {
        entries: 10,
        window: 1,
        bound: 10,
        after_write: Some(1000),
        after_access: None,
        refresh: Some(50),
        flights: 16,
        ring: 64,
    };
    let mut cache: Core<u64, Rate> = Core::new(alloc, &config)?;
    ask(rt, alloc, &mut cache)
}
