// A cache whose loads are run by workers, and how it ends.

use crate::source::{Page, Source};
use std::alloc::Global;
use std::sync::Wait;
use wt_cache::{JobLine, LoadingCache, WorkerReport};
use wt_core::{Notices, Stats};
use wt_keys::Fault;
use wt_shards::{Books, Pass, Shards};

/// A cache of pages before the source.
pub type Cached<B> = LoadingCache<u64, Page, Source, B>;

/// Puts a cache before the source, with a line where 64 loads may wait for workers.
pub fn new<B: Books>(alloc: Global, shards: Shards<u64, Page, B>) -> Result<Cached<B>, Fault> {
    let line = JobLine::new(alloc, 64)?;
    Ok(LoadingCache::new(shards, Source {}, Some(line)))
}

/// Runs loads in this thread, until the line is closed and empty.
pub fn run_worker<B: Books, R: Wait>(
    rt: &R,
    alloc: Global,
    cache: &Cached<B>,
) -> Result<(WorkerReport, Pass<u64, Page, B>), Fault> {
    let mut pass = cache.pass(rt, alloc)?;
    let mut left = Notices::new(alloc, cache.entries() as usize)?;
    let report = match cache.line() {
        Some(line) => {
            let mut line_pass = line.pass(rt)?;
            cache.run_worker(rt, &mut pass, &mut line_pass, &mut left)
        }
        None => WorkerReport {
            jobs: 0,
            failed: 0,
            removed: 0,
        },
    };
    Ok((report, pass))
}

/// Lets the workers end, once no caller asks any more.
pub fn close<B: Books, R: Wait>(rt: &R, cache: &Cached<B>) {
    if let Some(line) = cache.line() {
        line.close(rt);
    }
}

/// Returns the numbers of all shards, added up.
pub fn stats<B: Books, R: Wait>(rt: &R, cache: &Cached<B>) -> Stats {
    cache.stats(rt)
}

/// Returns how many look-ups missed, with those of all calls that the pass has seen.
pub fn seen_stats<B: Books, R: Wait>(
    rt: &R,
    cache: &Cached<B>,
    pass: &mut Pass<u64, Page, B>,
) -> u64 {
    let stats = cache.seen_stats(rt, pass);
    stats.lookups - stats.hits
}

/// Ends the cache, and returns the steps of its first shard, once every pass is back.
pub fn finish<B: Books, R: Wait>(
    rt: &R,
    alloc: Global,
    cache: Cached<B>,
    passes: Vec<Pass<u64, Page, B>>,
) -> Result<u64, Fault> {
    let totals = cache.finish().settle(rt, alloc, passes)?;
    Ok(totals.of(0).map_or(0, |total| total.steps))
}

/// Ends the cache as `finish` does, in two calls: the first shows each shard's history, and the
/// second compares it with the passes.
pub fn end<B: Books, R: Wait>(
    rt: &R,
    cache: Cached<B>,
    passes: Vec<Pass<u64, Page, B>>,
) -> Result<u64, Fault> {
    let ends = cache.finish().end(rt);
    let totals = ends.settle(passes)?;
    Ok(totals.of(0).map_or(0, |total| total.steps))
}
