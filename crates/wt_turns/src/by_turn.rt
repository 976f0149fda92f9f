// A replay turn by turn: the threads take turns with the lines of a trace, on one shared cache.
//
//     line n ──► thread (n - 1) modulo the threads ──► the cache, by a pass of the thread's own
//                                                        │ loads, if there are workers
//     workers, each with a pass ◄── a line of 64 loads ◄─┘
//
// When all threads have ended the line is closed, the workers end, and all passes are settled.
ghost use Rattle.std.specs.Prelude.{◌≡◌, ◌+◌, ◌≤◌, length, OnOk, IfOk, IfErr, IfSome, None, false, true};
ghost use Rattle.wt_core.specs.Lawful.{AreSmall};
ghost use Rattle.wt_trace.specs.Options.{option_fault};
ghost use Rattle.wt_trace.specs.Stops.{AreAsked};
ghost use Rattle.wt_trace.specs.Trace.{lines_of, trace_from, line_end};
ghost use Rattle.wt_core.specs.Sums.{AreSums};
ghost use Rattle.wt_turns.specs.ByTurn.{AreLooked, IsGood};
ghost use Rattle.wt_turns.specs.ByTurn as spec;
ghost use Rattle.wt_turns.specs.Contract.{AreLedgersOf, AreSumsOf, AreTraceSums, IsSession};
ghost use Rattle.wt_turns.specs.Turns.{IsRunStop};
ghost use Rattle.wt_trace.specs.Replayed.{is_config_fault};
ghost use Rattle.wt_trace.specs.declared.fault.ReplayFault.TheVariants as fault;

mod aids;
mod crew;
mod loader;
mod turns;

use crate::by_turn::aids::Aids;
use crate::by_turn::crew::{gather, stop_of, work_all};
use crate::by_turn::loader::TraceLoader;
use crate::by_turn::turns::{Deal, RunFault};
use std::alloc::Global;
use std::marker::Brand;
use std::sync::Wait;
use std::thread::Threads;
use wt_cache::{JobLine, LoadingCache};
use wt_core::Stats;
use wt_keys::{Fault, Name};
use wt_shards::{Blanks, Books, Names, Of, Pass, Shards, Total, Totals};
use wt_trace::{
    Act, Gate, Line, Options, ReplayFault, TraceKey, Version, behind_header, read_lines,
};

// How many loads may wait for a worker.
const MOST_WAITING: u32 = 64;

// The numbers of a shard, if there is one.
fn numbers(total: Option<Total>) -> Stats
    requires { IfSome total IsGood }
    ensures value { result ≡ spec.numbers_of total }
    ensures looked { AreLooked result }
    ensures small { AreSmall result }
{
    match total {
        Some(total) => total.stats,
        None => Stats::NOTHING,
    }
}

// The sums of the numbers of all shards.
fn sum_of<B: Books>(totals: &Totals<B>) -> Stats
    requires each { IfSome totals.now.zero IsGood × IfSome totals.now.one IsGood
        × IfSome totals.now.two IsGood × IfSome totals.now.three IsGood }
    ensures sums { AreSums spec.numbers_of result (spec.shards_of totals.now) }
    ensures looked { AreLooked result }
{
    let zero = numbers(totals.of(0));
    let one = numbers(totals.of(1));
    let two = numbers(totals.of(2));
    let three = numbers(totals.of(3));
    zero.plus(&one).plus(&two).plus(&three)
}

// A new cache at given ledgers, with a line if there are workers.
fn opened<K: TraceKey, N: Names + Send + Sync, R: Wait>(
    rt: &R,
    alloc: Global,
    blanks: Blanks<K, Version<K>>,
    options: &Options,
) -> Result<LoadingCache<K, Version<K>, TraceLoader, Of<N>>, Fault>
    requires { AreLedgersOf N.layout N.name N.book blanks options.now }
    ensures layout { IfOk result (λ cache. cache.layout ≡ spec.layout_of options.now) }
    ensures few { IfOk result (λ cache. cache.layout.shards ≤ 4) }
    ensures faults { IfErr result (λ f. is_config_fault (fault.Cache f) ≡ false) }
{
    let config = options.config();
    // The options are in their ranges, so only memory can be refused.
    let Ok(shards) = Shards::<K, Version<K>, Of<N>>::new(
        rt,
        alloc,
        blanks,
        &config,
        options.shards(),
    ) else {
        return Err(Fault::NoMemory);
    };
    let loader = TraceLoader::of(options);
    if options.workers == 0 {
        return Ok(LoadingCache::new(shards, loader, None));
    }
    let line = JobLine::new(alloc, MOST_WAITING)?;
    Ok(LoadingCache::new(shards, loader, Some(line)))
}

// Ends the cache, and returns the sums of all shards' numbers; `PassMissing`, if the passes don't
// account for all steps.
fn settled<K: TraceKey, N: Names + Send + Sync, R: Wait>(
    rt: &R,
    alloc: Global,
    cache: LoadingCache<K, Version<K>, TraceLoader, Of<N>>,
    passes: Vec<Pass<K, Version<K>, Of<N>>>,
) -> Result<Stats, Fault>
    ensures looked { IfOk result AreLooked }
    ensures faults { IfErr result (λ f. is_config_fault (fault.Cache f) ≡ false) }
{
    let totals = cache.finish().settle(rt, alloc, passes)?;
    Ok(sum_of(&totals))
}

// Does the lines with a cache, and returns the passes of all threads.
fn passes_of<K: TraceKey, N: Names + Send + Sync, G: Gate, R: Threads + Wait + Sync>(
    rt: &R,
    alloc: Global,
    cache: &LoadingCache<K, Version<K>, TraceLoader, Of<N>>,
    deal: &Deal<'_, K>,
    gate: &G,
    workers: usize,
) -> Result<Vec<Pass<K, Version<K>, Of<N>>>, RunFault>
    requires { cache.now.layout.shards ≤ 4 }
    ensures asked { OnOk result (AreAsked (λ _. true) (λ n. G.answers gate.now n true)
        deal.now.first deal.now.lines.now) }
    ensures err { IfErr result (IsRunStop (λ n. G.answers gate.now n false)) }
{
    let (ran, worked) = work_all(rt, alloc, cache, deal, gate, workers);
    let (Ok(ran), Ok(worked)) = (ran, worked) else {
        return Err(RunFault::Cache(Fault::NoMemory));
    };
    if let Some(stop) = stop_of(&ran) {
        return Err(stop);
    }
    match gather(alloc, ran, worked) {
        Ok(passes) => Ok(passes),
        Err(fault) => Err(RunFault::Cache(fault)),
    }
}

// A run at given ledgers.
fn session<K: TraceKey, N: Names + Send + Sync, G: Gate, R: Threads + Wait + Sync>(
    rt: &R,
    alloc: Global,
    blanks: Blanks<K, Version<K>>,
    options: &Options,
    deal: &Deal<'_, K>,
    gate: &G,
) -> Result<Stats, RunFault>
    requires { AreLedgersOf N.layout N.name N.book blanks options.now }
    ensures { IsSession (G.answers gate.now) deal.now.first deal.now.lines.now result }
{
    let cache: LoadingCache<K, Version<K>, TraceLoader, Of<N>> = match opened(
        rt, alloc, blanks, options,
    ) {
        Ok(cache) => cache,
        Err(fault) => return Err(RunFault::Cache(fault)),
    };
    let passes = match passes_of(rt, alloc, &cache, deal, gate, options.workers as usize) {
        Ok(passes) => passes,
        Err(stop) => return Err(stop),
    };
    match settled(rt, alloc, cache, passes) {
        Ok(sums) => Ok(sums),
        Err(fault) => Err(RunFault::Cache(fault)),
    }
}

// Does the lines of a deal turn by turn, and returns the sums of the numbers of all shards: hits and
// misses are the look-ups.
fn totals_by_turn<K: TraceKey, G: Gate, R: Threads + Wait + Sync>(
    rt: &R,
    alloc: Global,
    options: &Options,
    deal: &Deal<'_, K>,
    gate: &G,
) -> Result<Stats, RunFault>
    requires { option_fault options.now ≡ None }
    ensures { IsSession (G.answers gate.now) deal.now.first deal.now.lines.now result }
{
    session::<K, Brand, G, R>(rt, alloc, Blanks::new(), options, deal, gate)
}

// The number of the first line that leaves a load open or lands one, if there is one.
fn first_open<K: TraceKey>(first: u64, lines: &[Line<K>]) -> Option<u64>
    requires { first + length lines.now ≤ line_end + 1 }
    ensures { result ≡ spec.first_open first lines.now }
{
    let mut rest = lines;
    let mut n = first;
    while let Some((line, after)) = rest.split_first() {
        if let Act::Seek(_) | Act::Land(_) = line.act {
            return Some(n);
        }
        rest = after;
        n += 1;
    }
    None
}

// The sums of a trace whose first line is line `first`, whatever its keys are.
fn sums_of_trace<K: TraceKey, G: Gate, R: Threads + Wait + Sync>(
    rt: &R,
    alloc: Global,
    options: &Options,
    first: u64,
    bytes: &[u8],
    threads: usize,
    gate: &G,
) -> Result<Stats, ReplayFault>
    requires options { option_fault options.now ≡ None }
    requires first { (1 ≤ first) × (first ≤ 2) }
    requires threads { (1 ≤ threads) × (threads ≤ 64) }
    ensures { AreTraceSums (G.answers gate.now) first (trace_from K.read first (lines_of bytes.now))
        result }
{
    let Ok(read) = read_lines::<K>(alloc, first, bytes) else {
        return Err(ReplayFault::Cache(Fault::NoMemory));
    };
    if let Some(n) = first_open(first, &read.lines) {
        return Err(ReplayFault::BadLine { n });
    }
    read.verdict?;
    let Ok(aids) = Aids::new(alloc, options) else {
        return Err(ReplayFault::Cache(Fault::NoMemory));
    };
    let deal = Deal {
        aids: &aids,
        first,
        lines: &read.lines,
        threads,
    };
    match totals_by_turn(rt, alloc, options, &deal, gate) {
        Ok(sums) => Ok(sums),
        Err(RunFault::Cache(fault)) => Err(ReplayFault::Cache(fault)),
        Err(RunFault::GateShut { n }) => Err(ReplayFault::GateShut { n }),
    }
}

/// Does the lines of a trace turn by turn, and returns the sums of the numbers of all shards: hits
/// and misses are the look-ups.
///
/// If a line is at fault, or leaves a load open or lands one, no line is done, and the fault is
/// that line's. `GateShut` of a line before which the gate was shut. If several threads fail, the
/// fault is that of the least thread, after all have ended. Takes memory for the lines, the cache,
/// the passes and the threads.
pub fn sums_by_turn<G: Gate, R: Threads + Wait + Sync>(
    rt: &R,
    alloc: Global,
    options: &Options,
    bytes: &[u8],
    threads: usize,
    gate: &G,
) -> Result<Stats, ReplayFault>
    requires options { option_fault options.now ≡ None }
    requires threads { (1 ≤ threads) × (threads ≤ 64) }
    ensures made { AreSumsOf (spec.IsLetThrough (λ n. G.answers gate.now n true) bytes.now)
        (spec.turn_fault bytes.now) (λ n. G.answers gate.now n false) result }
{
    let Some(rest) = behind_header(bytes) else {
        return sums_of_trace::<u64, G, R>(rt, alloc, options, 1, bytes, threads, gate);
    };
    sums_of_trace::<Name, G, R>(rt, alloc, options, 2, rest, threads, gate)
}
