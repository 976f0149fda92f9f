// The line and its workers: which of them runs a load, and what is reported.
use crate::tests::calls::{Answer, Led, put};
use crate::tests::compare::{holds, same};
use crate::tests::stage::{Cache, Version, config};
use crate::tests::together::{Scene, gets, plays, plays_at, puts_and_gets};
use std::alloc::Global;
use std::process::Abort;
use std::sync::Wait;
use std::test::Fail;
use std::thread;
use std::thread::Threads;
use wt_cache::{How, Posted};
use wt_core::Notices;
use wt_flights::{Lead, Outcome};
use wt_keys::Fault;
use wt_shards::{Names, Of, Pass};

/// What a worker reports: its jobs, the failed ones, and what left.
pub type Report = Result<(u64, u64, u64), Fault>;

/// A worker with this pass runs until the line is closed and empty. `NoMemory` if its list of notices
/// was refused.
pub fn works_by<N: Names, R: Wait>(
    rt: &R,
    alloc: Global,
    cache: &Cache<N>,
    pass: &mut Pass<u64, Version, Of<N>>,
) -> Report {
    let Some(line) = cache.line() else {
        return Err(Fault::LineClosed);
    };
    let mut notices = Notices::new(alloc, cache.entries() as usize)?;
    let mut line_pass = line.pass(rt)?;
    let report = cache.run_worker(rt, pass, &mut line_pass, &mut notices);
    Ok((report.jobs, report.failed, report.removed))
}

/// The same with a pass of its own.
pub fn works<N: Names, R: Wait>(rt: &R, alloc: Global, cache: &Cache<N>) -> Report {
    let mut pass = cache.pass(rt, alloc)?;
    works_by(rt, alloc, cache, &mut pass)
}

/// Closes the cache's line.
pub fn close<N: Names, R: Wait>(rt: &R, cache: &Cache<N>) {
    if let Some(line) = cache.line() {
        line.close(rt);
    }
}

/// Posts a load: whether the line took it.
pub fn posts<N: Names, R: Wait>(
    rt: &R,
    cache: &Cache<N>,
    lead: Lead<u64, Version>,
) -> Result<bool, Fault> {
    let Some(line) = cache.line() else {
        return Err(Fault::LineClosed);
    };
    let mut line_pass = line.pass(rt)?;
    Ok(matches!(line.post(rt, &mut line_pass, lead), Ok(Posted::Line)))
}

// The caller loads beside a full line, and beside a closed one.
fn loads_beside<N: Names, R: Wait + Abort>(rt: &R, alloc: Global, cache: &Cache<N>) {
    let loaded = Ok((How::Loaded, 0));
    same(
        rt,
        "a get beside the full line",
        gets(rt, alloc, cache, 2),
        loaded,
    );
    close(rt, cache);
    same(
        rt,
        "a get beside the closed line",
        gets(rt, alloc, cache, 3),
        loaded,
    );
}

/// A load stands in a line of one place while others are got; then it is run.
pub fn full_line<N: Names, R: Wait + Abort>(
    rt: &R,
    alloc: Global,
    cache: &Cache<N>,
    open: Led,
) -> Result<(), Fault> {
    let Some((lead, mut ticket)) = open else {
        return Err(Fault::Mixed);
    };
    same(
        rt,
        "the line takes the load",
        posts(rt, cache, lead),
        Ok(true),
    );
    loads_beside(rt, alloc, cache);
    holds(
        rt,
        "the ticket knows nothing yet",
        matches!(ticket.poll(), Ok(None)),
    );
    same(
        rt,
        "a worker's jobs, failures and removals",
        works(rt, alloc, cache),
        Ok((1, 0, 0)),
    );
    let outcome = ticket.poll();
    let is_told = matches!(
        outcome,
        Ok(Some(Outcome::Value(Version {
            key: 1,
            line: 0,
            ..
        })))
    );
    holds(rt, "the ticket knows the worker's value", is_told);
    same(
        rt,
        "a worker at the empty line",
        works(rt, alloc, cache),
        Ok((0, 0, 0)),
    );
    Ok(())
}

#[test]
fn beside_a_full_or_closed_line_the_caller_loads(rt: HostRuntime) -> Result<(), Fail> {
    plays(&rt, rt.alloc(), &config(4, 8, None), Scene::FullLine)?;
    Ok(())
}

// Puts as many entries that weigh 2, from key 2 on.
fn puts_by<N: Names, R: Wait>(
    rt: &R,
    alloc: Global,
    cache: &Cache<N>,
    pass: &mut Pass<u64, Version, Of<N>>,
    entries: u32,
) -> Result<(), Fault> {
    for place in 0..entries {
        let version = Version {
            key: u64::from(place).wrapping_add(2),
            line: 5,
            weight: 2,
        };
        put(rt, alloc, cache, pass, version, 0)?;
    }
    Ok(())
}

// The same with a pass of its own.
fn puts<N: Names, R: Wait>(
    rt: &R,
    alloc: Global,
    cache: &Cache<N>,
    entries: u32,
) -> Result<(), Fault> {
    let mut pass = cache.pass(rt, alloc)?;
    puts_by(rt, alloc, cache, &mut pass, entries)
}

/// As many entries weigh 2 each and, together, all that they may, until a worker loads a value that
/// weighs as much.
pub fn heavy_load<N: Names, R: Wait + Abort>(
    rt: &R,
    alloc: Global,
    cache: &Cache<N>,
    open: Led,
    entries: u32,
) -> Result<(), Fault> {
    let Some((lead, _ticket)) = open else {
        return Err(Fault::Mixed);
    };
    puts(rt, alloc, cache, entries)?;
    let posted = posts(rt, cache, lead);
    same(rt, "the line takes the load", posted, Ok(true));
    close(rt, cache);
    same(
        rt,
        "the worker's jobs, failures and removals",
        works(rt, alloc, cache),
        Ok((1, 0, u64::from(entries))),
    );
    Ok(())
}

#[test]
fn a_worker_counts_each_entry_that_leaves(rt: HostRuntime) -> Result<(), Fail> {
    for (entries, bound) in [(1, 2), (2, 4), (3, 6)] {
        let limits = config(4, 8, None).with_bound(bound);
        plays_at(&rt, rt.alloc(), &limits, 1, Scene::Heavy(entries))?;
    }
    Ok(())
}

// One caller gets three keys in turn, and the first once more; then the line is closed.
fn get_four<N: Names, R: Wait>(rt: &R, alloc: Global, cache: &Cache<N>) -> [Answer; 4] {
    let got = [
        gets(rt, alloc, cache, 1),
        gets(rt, alloc, cache, 2),
        gets(rt, alloc, cache, 6),
        gets(rt, alloc, cache, 1),
    ];
    close(rt, cache);
    got
}

/// One worker beside one caller, in a cache whose shards have one entry each, and whose loader
/// fails key 1. Keys 2 and 6 are of one shard.
pub fn one_worker<N: Names + Send + Sync, R: Threads + Wait + Abort + Sync>(
    rt: &R,
    alloc: Global,
    cache: &Cache<N>,
) -> Result<(), Fault> {
    let (got, report) = thread::join(
        rt,
        || get_four(rt, alloc, cache),
        || works(rt, alloc, cache),
    );
    let failed: Answer = Err(Fault::LoadFailed { code: 300 });
    let loaded = Ok((How::Loaded, 0));
    same(rt, "four gets", got, [failed, loaded, loaded, failed]);
    same(
        rt,
        "the worker's jobs, failures and removals",
        report,
        Ok((4, 2, 1)),
    );
    Ok(())
}

#[test]
fn a_worker_counts_jobs_failures_and_removals(rt: HostRuntime) -> Result<(), Fail> {
    plays(&rt, rt.alloc(), &config(1, 8, None), Scene::OneWorker)?;
    Ok(())
}

// More loads than a line may have places.
const MANY: u64 = 5_000;

// One caller gets many keys in turn. Returns how many were loaded.
fn load_many<N: Names, R: Wait>(rt: &R, alloc: Global, cache: &Cache<N>) -> Result<u64, Fault> {
    let mut loaded = 0u64;
    for key in 0..MANY {
        if gets(rt, alloc, cache, key)? == (How::Loaded, 0) {
            loaded = loaded.wrapping_add(1);
        }
    }
    Ok(loaded)
}

/// One worker beside one caller that gets many keys. The worker runs each load, and reports each
/// entry that isn't in the cache any more.
pub fn many_loads<N: Names + Send + Sync, R: Threads + Wait + Abort + Sync>(
    rt: &R,
    alloc: Global,
    cache: &Cache<N>,
) -> Result<(), Fault> {
    let (got, report) = thread::join(
        rt,
        || {
            let loaded = load_many(rt, alloc, cache);
            close(rt, cache);
            loaded
        },
        || works(rt, alloc, cache),
    );
    same(rt, "how many keys were loaded", got, Ok(MANY));
    let left = MANY.wrapping_sub(cache.stats(rt).entries);
    same(
        rt,
        "the worker's jobs, failures and removals",
        report,
        Ok((MANY, 0, left)),
    );
    Ok(())
}

#[test]
fn a_worker_runs_loads_until_the_line_is_closed(rt: HostRuntime) -> Result<(), Fail> {
    plays_at(&rt, rt.alloc(), &config(4, 8, None), 1, Scene::ManyLoads)?;
    Ok(())
}

// A value is put and got once it is due; then the line is closed.
fn get_due<N: Names, R: Wait>(rt: &R, alloc: Global, cache: &Cache<N>) -> Answer {
    let got = puts_and_gets(rt, alloc, cache, 50);
    close(rt, cache);
    got
}

/// One worker beside one caller, whose value is due: the old one is got, the new one is loaded.
pub fn refresh<N: Names + Send + Sync, R: Threads + Wait + Abort + Sync>(
    rt: &R,
    alloc: Global,
    cache: &Cache<N>,
) -> Result<(), Fault> {
    let (got, report) = thread::join(rt, || get_due(rt, alloc, cache), || works(rt, alloc, cache));
    same(rt, "the get of the due value", got, Ok((How::Refreshed, 5)));
    same(
        rt,
        "the worker's jobs, failures and removals",
        report,
        Ok((1, 0, 1)),
    );
    same(
        rt,
        "a get of the refreshed value",
        gets(rt, alloc, cache, 1),
        Ok((How::Hit, 0)),
    );
    Ok(())
}

#[test]
fn a_worker_loads_a_due_value_anew(rt: HostRuntime) -> Result<(), Fail> {
    plays(&rt, rt.alloc(), &config(4, 8, None), Scene::Refresh)?;
    Ok(())
}

// Two callers beside each other; then the line is closed.
fn get_two<N: Names + Send + Sync, R: Threads + Wait + Sync>(
    rt: &R,
    alloc: Global,
    cache: &Cache<N>,
) -> (Answer, Answer) {
    let got = thread::join(
        rt,
        || gets(rt, alloc, cache, 1),
        || gets(rt, alloc, cache, 2),
    );
    close(rt, cache);
    got
}

/// Two workers beside each other.
pub fn work_twice<N: Names + Send + Sync, R: Threads + Wait + Sync>(
    rt: &R,
    alloc: Global,
    cache: &Cache<N>,
) -> (Report, Report) {
    thread::join(rt, || works(rt, alloc, cache), || works(rt, alloc, cache))
}

/// Two workers beside two callers, where each load ends only once the other has begun.
pub fn two_workers<N: Names + Send + Sync, R: Threads + Wait + Abort + Sync>(
    rt: &R,
    alloc: Global,
    cache: &Cache<N>,
) -> Result<(), Fault> {
    let (got, worked) = thread::join(
        rt,
        || get_two(rt, alloc, cache),
        || work_twice(rt, alloc, cache),
    );
    same(
        rt,
        "the two callers",
        got,
        (Ok((How::Loaded, 0)), Ok((How::Loaded, 0))),
    );
    same(
        rt,
        "the two workers",
        worked,
        (Ok((1, 0, 0)), Ok((1, 0, 0))),
    );
    Ok(())
}

#[test]
fn two_workers_run_two_loads_at_once(rt: HostRuntime) -> Result<(), Fail> {
    plays(&rt, rt.alloc(), &config(4, 8, None), Scene::TwoWorkers)?;
    Ok(())
}
