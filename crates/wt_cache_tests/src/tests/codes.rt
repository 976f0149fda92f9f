// The codes of failed loads as callers get them: a caller that loads, one that joins, one that
// posts.
use crate::tests::calls::Answer;
use crate::tests::compare::same;
use crate::tests::stage::{Cache, Marks, config};
use crate::tests::threads::shares;
use crate::tests::together::{Scene, gets, plays};
use crate::tests::workers::{close, works};
use std::alloc::Global;
use std::process::Abort;
use std::sync::Wait;
use std::sync::atomic::Ordering;
use std::test::Fail;
use std::thread;
use std::thread::Threads;
use wt_keys::Fault;
use wt_shards::Names;

// Keys whose loads fail with these numbers as codes: the least, one between and the greatest.
const KEYS: [u64; 3] = [0, 500, 4_294_967_295];

// A caller's result.
const TOLD: [Answer; 3] = [
    Err(Fault::LoadFailed { code: 0 }),
    Err(Fault::LoadFailed { code: 500 }),
    Err(Fault::LoadFailed { code: u32::MAX }),
];

/// Two callers share the load of each key: both get its code.
pub fn failed_shares<N: Names + Send + Sync, R: Threads + Wait + Abort + Sync>(
    rt: &R,
    alloc: Global,
    cache: &Cache<N>,
    marks: &Marks,
) -> Result<(), Fault> {
    let [a, b, c] = KEYS;
    let (one, two, three) = (
        shares(rt, alloc, cache, marks, a, 1),
        shares(rt, alloc, cache, marks, b, 2),
        shares(rt, alloc, cache, marks, c, 3),
    );
    same(rt, "the callers that load", [one.0, two.0, three.0], TOLD);
    same(rt, "the callers that join", [one.1, two.1, three.1], TOLD);
    same(
        rt,
        "loads begun, and failed",
        (marks.begun.load(Ordering::SeqCst), cache.stats(rt).failed),
        (3, 3),
    );
    Ok(())
}

#[test]
fn who_loads_and_who_joins_is_told_the_code(rt: HostRuntime) -> Result<(), Fail> {
    plays(&rt, rt.alloc(), &config(4, 8, None), Scene::FailedShares)?;
    Ok(())
}

// One caller gets each key; then the line is closed.
fn get_three<N: Names, R: Wait>(rt: &R, alloc: Global, cache: &Cache<N>) -> [Answer; 3] {
    let [a, b, c] = KEYS;
    let got = [
        gets(rt, alloc, cache, a),
        gets(rt, alloc, cache, b),
        gets(rt, alloc, cache, c),
    ];
    close(rt, cache);
    got
}

/// A worker runs the load of each key: the caller that posted it gets its code.
pub fn failed_jobs<N: Names + Send + Sync, R: Threads + Wait + Abort + Sync>(
    rt: &R,
    alloc: Global,
    cache: &Cache<N>,
    marks: &Marks,
) -> Result<(), Fault> {
    marks.released.store(3, Ordering::SeqCst);
    let (got, report) = thread::join(
        rt,
        || get_three(rt, alloc, cache),
        || works(rt, alloc, cache),
    );
    same(rt, "the caller that posts", got, TOLD);
    same(
        rt,
        "the worker's jobs, failures and removals",
        report,
        Ok((3, 3, 0)),
    );
    Ok(())
}

#[test]
fn who_posts_is_told_the_code(rt: HostRuntime) -> Result<(), Fail> {
    plays(&rt, rt.alloc(), &config(4, 8, None), Scene::FailedJobs)?;
    Ok(())
}
