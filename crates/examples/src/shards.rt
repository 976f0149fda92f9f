// Two threads put into a cache for many threads, and one reads what the other has put. A value is
// served for less than 1000 ms. At the end the passes show that no step is missing; the second time
// one pass is left out, and `settle` returns a fault.
mod fresh;
mod handing;
mod page;
mod peeking;
mod reading;
mod session;
mod writer;

use crate::shards::session::{Seen, session};
use std::alloc::Global;
use std::io::Print;
use std::marker::Brand;
use std::sync::Wait;
use std::thread::Threads;
use wt_core::Config;
use wt_keys::Fault;
use wt_shards::Blanks;

// Four shards of 64 entries each.
const CONFIG: Config = Config {
    entries: 64,
    window: 1,
    bound: 1000,
    after_write: Some(1000),
    after_access: None,
    refresh: None,
    flights: 4,
    ring: 16,
};

// The one place that names the ledgers: the pick for `Brand` stands in
// proofs/shards/run/Invariants.antt.
fn run<R: Threads + Wait + Sync>(rt: &R, alloc: Global, all: bool) -> Result<Seen, Fault> {
    session::<Brand, R>(rt, alloc, Blanks::new(), &CONFIG, all)
}

/// Prints what the second caller finds, and what `settle` returns, with all passes and without one.
pub fn show<R: Print + Threads + Wait + Sync>(rt: &R, alloc: Global) -> anyhow::Result<()> {
    for all in [true, false] {
        match run(rt, alloc, all) {
            Ok(seen) => {
                println!(rt; "the second caller reads version {}", seen.read.new)?;
                println!(rt; "after 999 ms it reads version {}", seen.read.young)?;
                println!(rt; "after 1000 ms it reads version {}", seen.read.old)?;
                println!(rt; "it peeks at version {}", seen.peeked.new)?;
                println!(rt; "after 999 ms it peeks at version {}", seen.peeked.young)?;
                println!(rt; "after 1000 ms it peeks at version {}", seen.peeked.old)?;
                println!(rt; "behind a put it seeks version {}", seen.fresh.put)?;
                println!(rt; "behind a removal it reads version {}", seen.fresh.dropped)?;
                println!(rt; "{} steps, and no pass is missing", seen.steps)?;
            }
            Err(fault) => println!(rt; "fault {}: {fault}", fault.number())?,
        }
    }
    Ok(())
}
