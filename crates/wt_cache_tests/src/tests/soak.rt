// Many calls of many threads, bounded by their number.
ghost use Rattle.std.specs.Prelude.{◌≡◌};
ghost use Rattle.wt_shards.specs.Opening.{AreBlanksOf};

use crate::tests::calls::{Answer, forget, get, invalidate, led, put};
use crate::tests::compare::same;
use crate::tests::stage::{Cache, Plain, Rules, Version, Way, config, light, new_marks};
use crate::tests::workers::works_by;
use std::alloc::Global;
use std::marker::Brand;
use std::process::Abort;
use std::sync::atomic::Ordering;
use std::sync::{Arc, Wait};
use std::test::Fail;
use std::thread;
use std::thread::Threads;
use wt_cache::{JobLine, LoadingCache};
use wt_core::Config;
use wt_keys::Fault;
use wt_shards::{Blanks, Names, Of, Pass, Shards};

// How many threads call, and how many calls each makes.
const CALLERS: usize = 8;

const CALLS: u64 = 500;

// Whether a version of this line may have been put for the key.
fn is_put(key: u64, line: u64) -> bool {
    1 <= line && line <= 8 && key.wrapping_add(line) % 3 == 0
}

// 1 where a get answers a value that was never loaded or put for its key, else 0.
fn strange(got: Answer, key: u64) -> Result<u64, Fault> {
    match got {
        Ok((_how, line)) => Ok(if line == 0 || is_put(key, line) { 0 } else { 1 }),
        Err(Fault::LoadFailed { code: u32::MAX }) => Ok(0),
        Err(Fault::TooManyFlights { .. }) => Ok(0),
        Err(fault) => Err(fault),
    }
}

// One call: what a draw says, on one of fifty keys. 1 where its value is strange.
fn call<N: Names, R: Wait>(
    rt: &R,
    alloc: Global,
    cache: &Cache<N>,
    pass: &mut Pass<u64, Version, Of<N>>,
    line: u64,
    draw: u64,
    now: u64,
) -> Result<u64, Fault> {
    let key = (draw >> 33) % 50;
    match (draw >> 20) % 10 {
        0 if is_put(key, line) => {
            put(rt, alloc, cache, pass, light(key, line), now)?;
            Ok(0)
        }
        1 => {
            invalidate(rt, alloc, cache, pass, key)?;
            Ok(0)
        }
        2 => {
            forget(rt, alloc, cache, pass, key)?;
            Ok(0)
        }
        _ => strange(get(rt, alloc, cache, pass, key, now), key),
    }
}

// All calls of one caller: how many values were strange.
fn calls<N: Names, R: Wait>(
    rt: &R,
    alloc: Global,
    cache: &Cache<N>,
    pass: &mut Pass<u64, Version, Of<N>>,
    line: u64,
) -> Result<u64, Fault> {
    let mut draw = line;
    let mut found = 0u64;
    for turn in 0..CALLS {
        draw = draw
            .wrapping_mul(6364136223846793005)
            .wrapping_add(1442695040888963407);
        found = found.wrapping_add(call(rt, alloc, cache, pass, line, draw, turn / 8)?);
    }
    Ok(found)
}

// The result of a thread: its pass, and how many values were strange.
type Ran<N> = Result<(Pass<u64, Version, Of<N>>, u64), Fault>;

// A caller with a pass of its own.
fn caller<N: Names, R: Wait>(rt: &R, alloc: Global, cache: &Cache<N>, number: usize) -> Ran<N> {
    let mut pass = cache.pass(rt, alloc)?;
    let line = (number as u64).wrapping_add(1);
    let found = calls(rt, alloc, cache, &mut pass, line)?;
    Ok((pass, found))
}

// All callers; then the line is closed.
fn call_all<N: Names + Send + Sync, R: Threads + Wait + Sync>(
    rt: &R,
    alloc: Global,
    cache: &Cache<N>,
) -> Result<Vec<Ran<N>>, Fault> {
    let ran = thread::map_indices(
        rt,
        alloc,
        CALLERS,
        &|number: usize| -> Ran<N> { caller(rt, alloc, cache, number) },
    );
    if let Some(line) = cache.line() {
        line.close(rt);
    }
    Ok(ran?)
}

// A worker with passes of its own.
fn worker<N: Names, R: Wait>(rt: &R, alloc: Global, cache: &Cache<N>) -> Ran<N> {
    let mut pass = cache.pass(rt, alloc)?;
    match works_by(rt, alloc, cache, &mut pass) {
        Ok(_report) => Ok((pass, 0)),
        Err(fault) => Err(fault),
    }
}

// Two workers.
fn work_all<N: Names + Send + Sync, R: Threads + Wait + Sync>(
    rt: &R,
    alloc: Global,
    cache: &Cache<N>,
) -> Result<Vec<Ran<N>>, Fault> {
    let ran = thread::map_indices(
        rt,
        alloc,
        2,
        &|_number: usize| -> Ran<N> { worker(rt, alloc, cache) },
    )?;
    Ok(ran)
}

// Adds what threads handed back to the passes: how many values were strange.
fn gather<N: Names>(
    ran: Vec<Ran<N>>,
    passes: &mut Vec<Pass<u64, Version, Of<N>>>,
) -> Result<u64, Fault> {
    let mut found = 0u64;
    for one in ran {
        let (pass, strange) = one?;
        passes.push(pass)?;
        found = found.wrapping_add(strange);
    }
    Ok(found)
}

// Callers beside workers: their passes, and how many values were strange.
fn run_all<N: Names + Send + Sync, R: Threads + Wait + Sync>(
    rt: &R,
    alloc: Global,
    cache: &Cache<N>,
    passes: &mut Vec<Pass<u64, Version, Of<N>>>,
) -> Result<u64, Fault> {
    let (called, worked) = thread::join(
        rt,
        || call_all(rt, alloc, cache),
        || work_all(rt, alloc, cache),
    );
    let found = gather(called?, passes)?;
    gather(worked?, passes)?;
    Ok(found)
}

// Seeks a key that was never asked for: 1 where that opens a load.
fn opens<N: Names, R: Wait>(
    rt: &R,
    alloc: Global,
    shards: &Plain<N>,
    pass: &mut Pass<u64, Version, Of<N>>,
    key: u64,
) -> Result<u64, Fault> {
    match led(rt, alloc, shards, pass, key) {
        Ok(Some(_)) => Ok(1),
        Ok(None) | Err(Fault::TooManyFlights { .. }) => Ok(0),
        Err(fault) => Err(fault),
    }
}

// How many loads of keys that were never asked for can be opened.
fn opens_all<N: Names, R: Wait>(
    rt: &R,
    alloc: Global,
    shards: &Plain<N>,
    pass: &mut Pass<u64, Version, Of<N>>,
) -> Result<u64, Fault> {
    let mut opened = 0u64;
    for key in 1000..1064u64 {
        opened = opened.wrapping_add(opens(rt, alloc, shards, pass, key)?);
    }
    Ok(opened)
}

// Settles the shards with all passes: how many loads could be opened still, by the first.
fn end<N: Names, R: Wait>(
    rt: &R,
    alloc: Global,
    shards: Plain<N>,
    mut passes: Vec<Pass<u64, Version, Of<N>>>,
) -> Result<u64, Fault> {
    let opened = match passes.first_mut() {
        Some(pass) => opens_all(rt, alloc, &shards, pass),
        None => Err(Fault::Mixed),
    };
    match shards.settle(rt, alloc, passes) {
        Ok(_totals) => opened,
        Err(fault) => Err(fault),
    }
}

// What a soak shows: the strange values, the loads that were begun and not landed, and how many
// loads can be opened at its end. That no pass is missing is asked by `settle`.
fn soak<N: Names + Send + Sync, R: Threads + Wait + Sync>(
    rt: &R,
    alloc: Global,
    blanks: Blanks<u64, Version>,
    config: &Config,
) -> Result<(u64, u64, u64), Fault>
    requires layout { N.layout ≡ record { shards = 4; config = config.now } }
    requires blanks { AreBlanksOf N.name N.book blanks }
{
    let marks = new_marks(alloc)?;
    let rules = Rules {
        way: Way::FailsFifth,
        marks: Arc::try_clone(&marks)?,
    };
    let line = JobLine::new(alloc, 4)?;
    let shards: Plain<N> = Shards::new(rt, alloc, blanks, config, 4)?;
    let cache: Cache<N> = LoadingCache::new(shards, rules, Some(line));
    let mut passes = Vec::new(alloc);
    let found = run_all(rt, alloc, &cache, &mut passes);
    let stats = cache.stats(rt);
    let landed = stats.loads.wrapping_add(stats.failed);
    let begun = marks.begun.load(Ordering::SeqCst);
    let opened = end(rt, alloc, cache.finish(), passes)?;
    Ok((found?, begun.wrapping_sub(landed), opened))
}

// The one place that names the ledgers of this cache.
fn soaks<R: Threads + Wait + Sync>(
    rt: &R,
    alloc: Global,
    config: &Config,
) -> Result<(u64, u64, u64), Fault> {
    soak::<Brand, R>(rt, alloc, Blanks::new(), config)
}

#[test]
fn a_soak_leaves_no_load_open_and_no_pass_missing(rt: HostRuntime) -> Result<(), Fail> {
    let config = config(8, 4, Some(40));
    same(
        &rt,
        "strange values, loads not landed, loads that can be opened",
        soaks(&rt, rt.alloc(), &config),
        Ok((0, 0, 16)),
    );
    Ok(())
}
