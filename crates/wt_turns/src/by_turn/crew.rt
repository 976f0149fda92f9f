// Starts the threads of a replay turn by turn and its workers, and gathers their passes and faults.
ghost use Rattle.std.specs.Prelude.{◌≡◌, ◌<◌, ◌≤◌, ℕ, length, vec_len, get_or, IfOk, IfErr, IfSome, IsOk, IsNone, Err, false};
ghost use Rattle.wt_turns.specs.ByTurn.{IsManned};
ghost use Rattle.wt_turns.specs.Contract.{HaveRan};
ghost use Rattle.wt_turns.specs.Turns.{AreDone, AreWorked, IsDone, unmade};
ghost use Rattle.wt_trace.specs.Keys.{keys_by};
ghost use Rattle.wt_trace.specs.Replayed.{is_config_fault};
ghost use Rattle.wt_trace.specs.declared.fault.ReplayFault.TheVariants as fault;

use crate::by_turn::loader::TraceLoader;
use crate::by_turn::turns::{Deal, RunFault, run_loads, run_thread};
use std::alloc::{AllocError, Global};
use std::sync::Wait;
use std::sync::atomic::{AtomicBool, Ordering};
use std::thread;
use std::thread::Threads;
use wt_cache::LoadingCache;
use wt_keys::Fault;
use wt_shards::{Names, Of, Pass};
use wt_trace::{Gate, TraceKey, Version};

// How often a replay looks for a worker before the lines begin.
const MOST_LOOKS: u32 = 10_000;

/// The pass of each thread, or the fault that stopped it.
pub(crate) type Ran<K, B> = Vec<Result<Pass<K, Version<K>, B>, RunFault>>;

/// The pass of each worker, or its fault.
pub(crate) type Worked<K, B> = Vec<Result<Pass<K, Version<K>, B>, Fault>>;

// Closes the line of loads if no worker comes to it, so that each caller loads for itself.
fn await_worker<K: TraceKey, N: Names + Send + Sync, R: Wait>(
    rt: &R,
    cache: &LoadingCache<K, Version<K>, TraceLoader, Of<N>>,
    manned: &AtomicBool,
) {
    let Some(line) = cache.line() else {
        return;
    };
    for _ in 0..MOST_LOOKS {
        if manned.load(Ordering::SeqCst) {
            return;
        }
        thread::yield_now();
    }
    line.close(rt);
}

// Has the threads do their turns once a worker came, and closes the line of loads then.
fn handle_all<K: TraceKey, N: Names + Send + Sync, G: Gate, R: Threads + Wait + Sync>(
    rt: &R,
    alloc: Global,
    cache: &LoadingCache<K, Version<K>, TraceLoader, Of<N>>,
    deal: &Deal<'_, K>,
    gate: &G,
    manned: &AtomicBool,
) -> Result<Ran<K, Of<N>>, AllocError>
    requires { cache.now.layout.shards ≤ 4 }
    ensures { HaveRan (keys_by K.eq K.word K.read K.shown) deal.now.aids.now.loader.options cache.now
        (G.answers gate.now) deal.now.first deal.now.lines.now deal.now.threads result }
{
    // Taken apart: the prover finds no proof for a thread's closure that captures the deal whole.
    let Deal {
        aids,
        first,
        lines,
        threads,
    } = *deal;
    await_worker(rt, cache, manned);
    let ran = thread::map_indices(
        rt,
        alloc,
        threads,
        &|t: usize| -> Result<Pass<K, Version<K>, Of<N>>, RunFault>
            requires { IsManned cache.now.layout.shards first (length lines.now) threads
                × (t < threads) }
            ensures { IsDone (keys_by K.eq K.word K.read K.shown) aids.entry.now.loader.options
                cache.entry.now (G.answers gate.entry.now) first lines.entry.now threads t result }
        {
            let deal = Deal {
                aids,
                first,
                lines,
                threads,
            };
            run_thread(rt, alloc, cache, &deal, t, gate)
        },
    );
    if let Some(line) = cache.line() {
        line.close(rt);
    }
    ran
}

// Has each of the workers run loads until the line is closed.
fn load_all<K: TraceKey, N: Names + Send + Sync, R: Threads + Wait + Sync>(
    rt: &R,
    alloc: Global,
    cache: &LoadingCache<K, Version<K>, TraceLoader, Of<N>>,
    workers: usize,
    manned: &AtomicBool,
) -> Result<Worked<K, Of<N>>, AllocError>
    ensures len { IfOk result (λ worked. vec_len worked ≡ workers) }
    ensures faults { IfOk result (λ worked. AreWorked worked.items) }
{
    thread::map_indices(
        rt,
        alloc,
        workers,
        &|_worker: usize| -> Result<Pass<K, Version<K>, Of<N>>, Fault>
            ensures { IfErr result (λ f. is_config_fault (fault.Cache f) ≡ false) }
        { run_loads(rt, alloc, cache, manned) },
    )
}

/// Has the threads do their turns while the workers run loads.
pub(crate) fn work_all<K: TraceKey, N: Names + Send + Sync, G: Gate, R: Threads + Wait + Sync>(
    rt: &R,
    alloc: Global,
    cache: &LoadingCache<K, Version<K>, TraceLoader, Of<N>>,
    deal: &Deal<'_, K>,
    gate: &G,
    workers: usize,
) -> (
    Result<Ran<K, Of<N>>, AllocError>,
    Result<Worked<K, Of<N>>, AllocError>,
)
    requires { cache.now.layout.shards ≤ 4 }
    ensures each { HaveRan (keys_by K.eq K.word K.read K.shown) deal.now.aids.now.loader.options
        cache.now (G.answers gate.now) deal.now.first deal.now.lines.now deal.now.threads result.0 }
    ensures len { IfOk result.1 (λ worked. vec_len worked ≡ workers) }
    ensures faults { IfOk result.1 (λ worked. AreWorked worked.items) }
{
    let manned = AtomicBool::new(false);
    // Taken apart, as in `handle_all`.
    let Deal {
        aids,
        first,
        lines,
        threads,
    } = *deal;
    thread::join(
        rt,
        || -> Result<Ran<K, Of<N>>, AllocError>
            requires { IsManned cache.now.layout.shards first (length lines.now) threads }
            ensures { IfOk result (λ ran. (vec_len ran ≡ threads)
                × AreDone (keys_by K.eq K.word K.read K.shown) aids.entry.now.loader.options
                cache.entry.now (G.answers gate.entry.now) first lines.entry.now threads
                ran.items) }
        {
            let deal = Deal {
                aids,
                first,
                lines,
                threads,
            };
            handle_all(rt, alloc, cache, &deal, gate, &manned)
        },
        || -> Result<Worked<K, Of<N>>, AllocError>
            ensures { IfOk result (λ worked. (vec_len worked ≡ workers)
                × AreWorked worked.items) }
        { load_all(rt, alloc, cache, workers, &manned) },
    )
}

/// Returns why the first thread stopped that did, if one did.
pub(crate) fn stop_of<P>(ran: &Vec<Result<P, RunFault>>) -> Option<RunFault>
    ensures none { IsNone result → (t : ℕ) → t < vec_len ran.now
        → IsOk (get_or ran.now.items t unmade) }
    ensures some { IfSome result (λ fault. (t : ℕ) × (t < vec_len ran.now)
        × (get_or ran.now.items t unmade ≡ Err fault)
        × ((u : ℕ) → u < t → IsOk (get_or ran.now.items u unmade))) }
{
    for t in 0..ran.len() {
        if let Err(fault) = &ran[t] {
            return Some(*fault);
        }
    }
    None
}

/// Returns the passes of the threads, of which none stopped, and of the workers, or the fault of
/// one of these.
pub(crate) fn gather<P: Drop>(
    alloc: Global,
    ran: Vec<Result<P, RunFault>>,
    worked: Vec<Result<P, Fault>>,
) -> Result<Vec<P>, Fault>
    requires { AreWorked worked.items }
    ensures { IfErr result (λ f. is_config_fault (fault.Cache f) ≡ false) }
{
    let mut passes = Vec::new(alloc);
    for one in ran {
        if let Ok(pass) = one {
            if passes.push(pass).is_err() {
                return Err(Fault::NoMemory);
            }
        }
    }
    for one in worked {
        if passes.push(one?).is_err() {
            return Err(Fault::NoMemory);
        }
    }
    Ok(passes)
}
