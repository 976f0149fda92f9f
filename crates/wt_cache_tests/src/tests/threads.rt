// Several callers: one load for all of them, and a put while it lasts.
use crate::tests::asleep::pause;
use crate::tests::calls::{Answer, Led, abandons};
use crate::tests::compare::{holds, same};
use crate::tests::stage::{Cache, Marks, Version, config, rises};
use crate::tests::together::{Scene, gets, gets_at, plays, puts_and_gets};
use std::alloc::Global;
use std::process::Abort;
use std::sync::Wait;
use std::sync::atomic::Ordering;
use std::test::Fail;
use std::thread;
use std::thread::Threads;
use wt_cache::How;
use wt_flights::Lead;
use wt_keys::Fault;
use wt_shards::Names;

// A moment of 13 digits, as a clock of the day gives it, above 2^40.
const TODAY: u64 = 1_700_000_000_000;

// Gets a key once its load has begun, which is the one of this number.
fn gets_later<N: Names, R: Wait>(
    rt: &R,
    alloc: Global,
    cache: &Cache<N>,
    marks: &Marks,
    key: u64,
    load: u64,
) -> Answer {
    if !rises(&marks.begun, load) {
        return Err(Fault::Mixed);
    }
    gets_at(rt, alloc, cache, key, TODAY)
}

/// Releases the load of this number once two look-ups for each load have missed, within 10,000,000
/// turns, and the caller that joined it sleeps.
pub fn releases<N: Names, R: Wait>(rt: &R, cache: &Cache<N>, marks: &Marks, load: u64) -> bool {
    for _ in 0..10_000_000u64 {
        if cache.stats(rt).misses == load.wrapping_mul(2) {
            pause();
            marks.released.store(load, Ordering::SeqCst);
            return true;
        }
        thread::yield_now();
    }
    false
}

// The two callers.
fn ask_twice<N: Names + Send + Sync, R: Threads + Wait + Sync>(
    rt: &R,
    alloc: Global,
    cache: &Cache<N>,
    marks: &Marks,
    key: u64,
    load: u64,
) -> (Answer, Answer) {
    thread::join(
        rt,
        || gets_at(rt, alloc, cache, key, TODAY),
        || gets_later(rt, alloc, cache, marks, key, load),
    )
}

/// Two callers ask for a key today while its load is held, which is the one of this number, from 1.
/// Returns the result of the caller that loads, and of the one that joins. The latter sleeps: a
/// load that weren't published, or woke nobody, would never end this.
pub fn shares<N: Names + Send + Sync, R: Threads + Wait + Abort + Sync>(
    rt: &R,
    alloc: Global,
    cache: &Cache<N>,
    marks: &Marks,
    key: u64,
    load: u64,
) -> (Answer, Answer) {
    let (answers, released) = thread::join(
        rt,
        || ask_twice(rt, alloc, cache, marks, key, load),
        || releases(rt, cache, marks, load),
    );
    holds(rt, "the held load is released", released);
    answers
}

/// Two callers ask for one key while its load is held.
pub fn one_load<N: Names + Send + Sync, R: Threads + Wait + Abort + Sync>(
    rt: &R,
    alloc: Global,
    cache: &Cache<N>,
    marks: &Marks,
) -> Result<(), Fault> {
    let answers = shares(rt, alloc, cache, marks, 1, 1);
    same(rt, "the caller that loads", answers.0, Ok((How::Loaded, 0)));
    same(rt, "the caller that joins", answers.1, Ok((How::Joined, 0)));
    same(
        rt,
        "how many loads were begun",
        marks.begun.load(Ordering::SeqCst),
        1,
    );
    let stats = cache.stats(rt);
    same(rt, "loads and misses", (stats.loads, stats.misses), (1, 2));
    Ok(())
}

#[test]
fn two_callers_share_one_load(rt: HostRuntime) -> Result<(), Fail> {
    plays(&rt, rt.alloc(), &config(4, 8, None), Scene::OneLoad)?;
    Ok(())
}

// Returns whether a second look-up misses within 10,000,000 turns.
fn misses_two<N: Names, R: Wait>(rt: &R, cache: &Cache<N>) -> bool {
    for _ in 0..10_000_000u64 {
        if cache.stats(rt).misses == 2 {
            return true;
        }
        thread::yield_now();
    }
    false
}

// Gives a load up once a second look-up has missed. Whether it did.
fn gives_up<N: Names, R: Wait>(
    rt: &R,
    alloc: Global,
    cache: &Cache<N>,
    lead: Lead<u64, Version>,
) -> Result<bool, Fault> {
    let missed = misses_two(rt, cache);
    abandons(rt, alloc, cache, lead)?;
    Ok(missed)
}

/// A caller waits for a load that is given up.
pub fn given_up<N: Names + Send + Sync, R: Threads + Wait + Abort + Sync>(
    rt: &R,
    alloc: Global,
    cache: &Cache<N>,
    open: Led,
) -> Result<(), Fault> {
    let Some((lead, _ticket)) = open else {
        return Err(Fault::Mixed);
    };
    let (joined, ended) = thread::join(
        rt,
        || gets(rt, alloc, cache, 1),
        || gives_up(rt, alloc, cache, lead),
    );
    same(rt, "the caller that waits", joined, Err(Fault::Abandoned));
    same(rt, "the load is given up", ended, Ok(true));
    Ok(())
}

#[test]
fn who_waits_for_a_load_that_is_given_up_is_told(rt: HostRuntime) -> Result<(), Fail> {
    plays(&rt, rt.alloc(), &config(4, 8, None), Scene::GivenUp)?;
    Ok(())
}

// Puts key 1 and gets it while its load is held, which is released then.
fn puts_meanwhile<N: Names, R: Wait>(
    rt: &R,
    alloc: Global,
    cache: &Cache<N>,
    marks: &Marks,
) -> Answer {
    let begun = rises(&marks.begun, 1);
    let answer = puts_and_gets(rt, alloc, cache, 0);
    marks.released.store(1, Ordering::SeqCst);
    if begun { answer } else { Err(Fault::Mixed) }
}

/// A value is put while its key is loaded.
pub fn put_beside_load<N: Names + Send + Sync, R: Threads + Wait + Abort + Sync>(
    rt: &R,
    alloc: Global,
    cache: &Cache<N>,
    marks: &Marks,
) -> Result<(), Fault> {
    let (loaded, put) = thread::join(
        rt,
        || gets(rt, alloc, cache, 1),
        || puts_meanwhile(rt, alloc, cache, marks),
    );
    same(rt, "the caller that puts", put, Ok((How::Hit, 5)));
    same(rt, "the caller that loads", loaded, Ok((How::Loaded, 0)));
    same(
        rt,
        "a get after both",
        gets(rt, alloc, cache, 1),
        Ok((How::Hit, 5)),
    );
    Ok(())
}

#[test]
fn a_load_does_not_overwrite_a_later_put(rt: HostRuntime) -> Result<(), Fail> {
    plays(&rt, rt.alloc(), &config(4, 8, None), Scene::PutBesideLoad)?;
    Ok(())
}
