// Pages of a slow source: one load for all that ask at once, a put that a load made meanwhile
// doesn't overwrite, the source's errors as codes, and a request that reads what another one put.
mod error;
mod page;
mod readers;
mod requests;
mod session;
mod source;
mod writer;

use crate::loads::error::SourceError;
use crate::loads::session::{Seen, session};
use std::alloc::Global;
use std::io::Print;
use std::marker::Brand;
use std::sync::Wait;
use std::thread::Threads;
use wt_core::Config;
use wt_keys::Fault;
use wt_shards::Blanks;

// Four shards of 64 pages each.
const CONFIG: Config = Config {
    entries: 64,
    window: 1,
    bound: 64,
    after_write: None,
    after_access: None,
    refresh: None,
    flights: 4,
    ring: 16,
};

// The one place that names the ledgers: the pick for `Brand` stands in
// proofs/loads/run/Invariants.antt.
fn run<R: Threads + Wait + Sync>(rt: &R, alloc: Global) -> Result<Seen, Fault> {
    session::<Brand, R>(rt, alloc, Blanks::new(), &CONFIG)
}

/// Prints what the readers of three pages see.
pub fn show<R: Print + Threads + Wait + Sync>(rt: &R, alloc: Global) -> anyhow::Result<()> {
    let seen = run(rt, alloc)?;
    let (answers, loads) = seen.eight;
    println!(rt; "page 7: eight asked, {answers} were answered, by {loads} load")?;
    let (loaded, kept) = seen.beside;
    println!(rt; "page 8: the load answers {loaded} words, and the {kept} that were put stay")?;
    if let Err(Fault::LoadFailed { code }) = seen.failed {
        println!(rt; "page 404: {}", SourceError::of(code).text())?;
    }
    let read = seen.read;
    println!(rt; "page 9: one request puts 900 words, and the next one reads {read}")?;
    Ok(())
}
