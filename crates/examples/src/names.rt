// Names for keys: a value that was loaded expires, and is loaded again.
mod session;
mod tally;

use crate::names::session::session;
use std::alloc::Global;
use std::io::Print;
use std::marker::Brand;
use std::sync::Wait;
use wt_core::Config;
use wt_keys::Fault;
use wt_shards::Blanks;

// One shard, whose entries expire 10 ms after they were written.
const CONFIG: Config = Config {
    entries: 16,
    window: 1,
    bound: 16,
    after_write: Some(10),
    after_access: None,
    refresh: None,
    flights: 4,
    ring: 16,
};

// The one place that names the ledgers: the pick for `Brand` stands in
// proofs/names/run/Invariants.antt.
fn run<R: Wait>(rt: &R, alloc: Global, now: [u64; 3]) -> Result<[u64; 3], Fault> {
    session::<Brand, R>(rt, alloc, Blanks::new(), &CONFIG, now)
}

/// Asks for a name at three moments, and prints the load that found it.
pub fn show<R: Print + Wait>(rt: &R, alloc: Global) -> anyhow::Result<()> {
    let moments = [0, 9, 10];
    let loads = run(rt, alloc, moments)?;
    for (now, load) in moments.into_iter().zip(loads) {
        println!(rt; "{now} ms: alice has load {load}")?;
    }
    Ok(())
}
