// A load that is posted, at early and late moments: until the worker lands it others join it, and
// then its value is there.
use crate::tests::calls::Answer;
use crate::tests::compare::same;
use crate::tests::stage::{Cache, Marks, config, rises};
use crate::tests::threads::releases;
use crate::tests::together::{Scene, gets_at, plays};
use crate::tests::workers::{close, works};
use std::alloc::Global;
use std::process::Abort;
use std::sync::Wait;
use std::test::Fail;
use std::thread;
use std::thread::Threads;
use wt_cache::How;
use wt_keys::Fault;
use wt_shards::Names;

// A clock's moments: its first, one of a clock that counts from 1970, and two of its upper half.
const MOMENTS: [u64; 4] = [0, 1_700_000_000_000, 1 << 63, u64::MAX];

// Gets key 1 once a worker loads it.
fn joins<N: Names, R: Wait>(
    rt: &R,
    alloc: Global,
    cache: &Cache<N>,
    marks: &Marks,
    now: u64,
) -> Answer {
    if !rises(&marks.begun, 1) {
        return Err(Fault::Mixed);
    }
    gets_at(rt, alloc, cache, 1, now)
}

// One caller posts the load of key 1, and another one gets the key while a worker holds the load.
fn get_twice<N: Names + Send + Sync, R: Threads + Wait + Sync>(
    rt: &R,
    alloc: Global,
    cache: &Cache<N>,
    marks: &Marks,
    now: u64,
) -> (Answer, Answer) {
    let (answers, _released) = thread::join(
        rt,
        || thread::join(
            rt,
            || gets_at(rt, alloc, cache, 1, now),
            || joins(rt, alloc, cache, marks, now),
        ),
        || releases(rt, cache, marks, 1),
    );
    answers
}

// The same, and a get after both; then the line is closed.
fn get_thrice<N: Names + Send + Sync, R: Threads + Wait + Sync>(
    rt: &R,
    alloc: Global,
    cache: &Cache<N>,
    marks: &Marks,
    now: u64,
) -> [Answer; 3] {
    let (first, second) = get_twice(rt, alloc, cache, marks, now);
    let third = gets_at(rt, alloc, cache, 1, now);
    close(rt, cache);
    [first, second, third]
}

/// One worker beside two callers that ask for one key at this moment, while its load is held.
pub fn posted_load<N: Names + Send + Sync, R: Threads + Wait + Abort + Sync>(
    rt: &R,
    alloc: Global,
    cache: &Cache<N>,
    marks: &Marks,
    now: u64,
) -> Result<(), Fault> {
    let (got, report) = thread::join(
        rt,
        || get_thrice(rt, alloc, cache, marks, now),
        || works(rt, alloc, cache),
    );
    let hoped = [
        Ok((How::Loaded, 0)),
        Ok((How::Joined, 0)),
        Ok((How::Hit, 0)),
    ];
    same(rt, "who posts, who joins and who comes later", got, hoped);
    same(
        rt,
        "the worker's jobs, failures and removals",
        report,
        Ok((1, 0, 0)),
    );
    Ok(())
}

#[test]
fn a_posted_load_is_joined_and_kept_at_each_moment(rt: HostRuntime) -> Result<(), Fail> {
    for now in MOMENTS {
        plays(&rt, rt.alloc(), &config(4, 8, None), Scene::Posted(now))?;
    }
    Ok(())
}
