// Callers that are lent all at once, each to another thread.

use super::compare::{holds, same};
use super::lending::{Lender, Play, plays};
use std::alloc::Global;
use std::process::Abort;
use std::sync::Wait;
use std::sync::atomic::{AtomicU64, Ordering};
use std::test::Fail;
use std::thread;
use std::thread::Threads;
use wt_cache::Keyed;
use wt_keys::Fault;
use wt_shards::Names;

// Whether as many come within 10,000,000 turns, the caller among them.
pub(super) fn all_come(come: &AtomicU64, threads: usize) -> bool {
    come.fetch_add(1, Ordering::SeqCst);
    for _ in 0..10_000_000u64 {
        if come.load(Ordering::SeqCst) >= threads as u64 {
            return true;
        }
        thread::yield_now();
    }
    false
}

// Lends a caller, and puts by it once all are lent. Whether all were.
fn puts_among<N: Names, R: Wait>(
    rt: &R,
    callers: &Lender<N>,
    lent: &AtomicU64,
    threads: usize,
    key: u64,
) -> Result<bool, Fault> {
    let mut caller = callers.lend(rt)?;
    let all = all_come(lent, threads);
    let put = caller.put(key, Keyed { key, value: 0 }, 0);
    caller.give_back();
    put?;
    Ok(all)
}

// So many threads have a caller each at the same time, and put a value each.
pub(super) fn all_at_once<N: Names + Send + Sync, R: Threads + Wait + Abort + Sync>(
    rt: &R,
    alloc: Global,
    callers: &Lender<N>,
    threads: usize,
) -> Result<(), Fault> {
    let lent = AtomicU64::new(0);
    let shared = &lent;
    let lents = thread::map_indices(
        rt,
        alloc,
        threads,
        &|thread: usize| -> Result<bool, Fault> {
            puts_among(rt, callers, shared, threads, thread as u64)
        },
    )?;
    for all in lents {
        holds(rt, "all callers are lent at once", all?);
    }
    Ok(())
}

// Each put is one step, and each caller has a pass of its own.
fn expect_settled<R: Threads + Wait + Abort + Sync>(
    rt: &R,
    alloc: Global,
    threads: usize,
) -> Result<(), Fault> {
    let ended = (threads, threads as u64, 0);
    same(
        rt,
        "passes, steps and hits",
        plays(rt, alloc, Play::AtOnce(threads))?,
        [ended, ended],
    );
    Ok(())
}

#[test]
fn five_callers_at_once_settle(rt: HostRuntime) -> Result<(), Fail> {
    expect_settled(&rt, rt.alloc(), 5)?;
    Ok(())
}

#[test]
fn sixty_five_callers_at_once_settle(rt: HostRuntime) -> Result<(), Fail> {
    expect_settled(&rt, rt.alloc(), 65)?;
    Ok(())
}
