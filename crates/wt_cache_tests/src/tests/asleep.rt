// Workers that sleep while the line is open and empty: a post wakes one, the close all.
use crate::tests::compare::same;
use crate::tests::stage::{Cache, config};
use crate::tests::together::{Scene, gets, plays};
use crate::tests::workers::{close, work_twice};
use std::alloc::Global;
use std::process::Abort;
use std::sync::Wait;
use std::test::Fail;
use std::thread;
use std::thread::Threads;
use wt_cache::How;
use wt_keys::Fault;
use wt_shards::Names;

/// Gives way so often that a thread that finds nothing to do falls asleep.
pub fn pause() {
    for _ in 0..1_000u64 {
        thread::yield_now();
    }
}

// Gets a hundred keys one after the other, from the first one on: how many were loaded.
fn get_hundred<N: Names, R: Wait>(
    rt: &R,
    alloc: Global,
    cache: &Cache<N>,
    first: u64,
    paused: bool,
) -> Result<u64, Fault> {
    let mut loaded = 0u64;
    for turn in 0..100u64 {
        if paused {
            pause();
        }
        if gets(rt, alloc, cache, first.wrapping_add(turn))? == (How::Loaded, 0) {
            loaded = loaded.wrapping_add(1);
        }
    }
    Ok(loaded)
}

// A hundred gets after a pause each, a hundred at once, and the close after another pause.
fn get_and_close<N: Names, R: Wait>(
    rt: &R,
    alloc: Global,
    cache: &Cache<N>,
) -> (Result<u64, Fault>, Result<u64, Fault>) {
    let paused = get_hundred(rt, alloc, cache, 0, true);
    let at_once = get_hundred(rt, alloc, cache, 100, false);
    pause();
    close(rt, cache);
    (paused, at_once)
}

/// Two workers beside one caller that posts after a pause, and at once. Each get waits for its
/// load: a post or a close that woke no worker would never end.
pub fn sleepers<N: Names + Send + Sync, R: Threads + Wait + Abort + Sync>(
    rt: &R,
    alloc: Global,
    cache: &Cache<N>,
) -> Result<(), Fault> {
    let (got, worked) = thread::join(
        rt,
        || get_and_close(rt, alloc, cache),
        || work_twice(rt, alloc, cache),
    );
    same(
        rt,
        "loads after a pause, and at once",
        got,
        (Ok(100), Ok(100)),
    );
    let (one, two) = worked;
    let (one, two) = (one?, two?);
    same(
        rt,
        "the jobs of both workers",
        one.0.wrapping_add(two.0),
        200,
    );
    Ok(())
}

#[test]
fn posts_wake_workers_that_sleep(rt: HostRuntime) -> Result<(), Fail> {
    plays(&rt, rt.alloc(), &config(4, 8, None), Scene::Sleepers)?;
    Ok(())
}
