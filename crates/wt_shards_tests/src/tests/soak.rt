// Four threads on few keys, for a number of turns: at the end no step is missing.
ghost use Rattle.std.specs.Prelude.{◌≡◌};
ghost use Rattle.wt_shards.specs.Opening.{AreBlanksOf};

use super::caller::Caller;
use super::compare::{holds, same};
use super::{config, plain_answer};
use std::alloc::Global;
use std::marker::Brand;
use std::process::Abort;
use std::sync::Wait;
use std::test::Fail;
use std::thread;
use std::thread::Threads;
use wt_core::Config;
use wt_keys::Fault;
use wt_shards::{Blanks, Names, Of, Pass, Shards, Total};
use wt_tests::{Dice, Do, Loaded, PlainReply, call_of, choose};

// How many threads call, and the turns of each.
const CALLERS: usize = 4;

const TURNS: u64 = 5_000;

// What is done next to some key: what the dice say, and half the time a load that the caller leads
// lands.
fn next<N: Names>(dice: &mut Dice, caller: &Caller<Loaded, Of<N>>, version: u64) -> (Do, u64) {
    if let Some((id, key)) = caller.any_led()
        && dice.roll(2) == 0
    {
        return (Do::Fail(id), key);
    }
    let key = dice.roll(8);
    (choose(dice, caller.led(key), 20, version), key)
}

// How many steps an answer tells of: a sweep is one at each shard, and a landing without a lead
// isn't made and has no number.
fn steps_of((reply, number): (PlainReply, u64), act: Do, shards: u64) -> u64 {
    match (reply, act) {
        (PlainReply::Refused(_), _) => 0,
        _ if number == 0 => 0,
        (_, Do::Clear | Do::Clean) => shards,
        _ => 1,
    }
}

// A caller's turns: how many steps their replies report.
fn take_turns<N: Names, R: Wait + Abort>(
    rt: &R,
    shards: &Shards<u64, Loaded, Of<N>>,
    caller: &mut Caller<Loaded, Of<N>>,
    seed: u64,
) -> u64 {
    let mut dice = Dice(seed);
    let mut steps: u64 = 0;
    for turn in 0..TURNS {
        let (act, key) = next(&mut dice, caller, turn);
        let answer = caller.make(rt, shards, call_of(act, key, turn));
        steps = steps.wrapping_add(steps_of(plain_answer(answer), act, shards.shards() as u64));
    }
    steps
}

// The result of a thread: its pass, and how many steps its replies report.
type Ran<N> = Result<(Pass<u64, Loaded, Of<N>>, u64), Fault>;

// A thread's work, with a caller of its own.
fn call<N: Names, R: Wait + Abort>(
    rt: &R,
    alloc: Global,
    shards: &Shards<u64, Loaded, Of<N>>,
    number: usize,
) -> Ran<N> {
    let mut caller = Caller::new(rt, alloc, shards)?;
    let steps = take_turns(rt, shards, &mut caller, (number as u64).wrapping_add(1));
    Ok((caller.into_pass(), steps))
}

// The work of all threads.
fn call_all<N: Names + Send + Sync, R: Threads + Wait + Abort + Sync>(
    rt: &R,
    alloc: Global,
    shards: &Shards<u64, Loaded, Of<N>>,
) -> Result<Vec<Ran<N>>, Fault> {
    let ran = thread::map_indices(
        rt,
        alloc,
        CALLERS,
        &|number: usize| -> Ran<N> { call(rt, alloc, shards, number) },
    )?;
    Ok(ran)
}

// Adds what the threads handed back to the passes: how many steps they told of.
fn gather<N: Names>(
    ran: Vec<Ran<N>>,
    passes: &mut Vec<Pass<u64, Loaded, Of<N>>>,
) -> Result<u64, Fault> {
    let mut told = 0u64;
    for one in ran {
        let (pass, steps) = one?;
        passes.push(pass)?;
        told = told.wrapping_add(steps);
    }
    Ok(told)
}

// At a shard there were hits, and hits and misses are the look-ups.
fn expect_total(rt: &impl Abort, total: &Total) {
    let stats = &total.stats;
    let met = stats.hits.wrapping_add(stats.misses);
    same(rt, "hits and misses are the look-ups", met, stats.lookups);
    same(rt, "the hits of the books", stats.hits, total.hits);
    holds(rt, "each shard has hits", stats.hits > 0);
}

// The steps that the settled books hold.
fn settled<N: Names, R: Wait + Abort>(
    rt: &R,
    alloc: Global,
    shards: Shards<u64, Loaded, Of<N>>,
    passes: Vec<Pass<u64, Loaded, Of<N>>>,
) -> Result<u64, Fault> {
    let totals = match shards.settle(rt, alloc, passes) {
        Ok(totals) => totals,
        Err(fault) => return Err(fault),
    };
    let mut made: u64 = 0;
    for shard in 0..4 {
        if let Some(total) = totals.of(shard) {
            expect_total(rt, &total);
            made = made.wrapping_add(total.steps);
        }
    }
    Ok(made)
}

// The steps that the replies report, and those that the settled books hold.
fn soak<N: Names + Send + Sync, R: Threads + Wait + Abort + Sync>(
    rt: &R,
    alloc: Global,
    blanks: Blanks<u64, Loaded>,
    limits: &Config,
    shards: usize,
) -> Result<(u64, u64), Fault>
    requires layout { N.layout ≡ record { shards = shards; config = limits.now } }
    requires blanks { AreBlanksOf N.name N.book blanks }
{
    let cache: Shards<u64, Loaded, Of<N>> = Shards::new(rt, alloc, blanks, limits, shards)?;
    let ran = call_all(rt, alloc, &cache)?;
    let mut passes = Vec::new(alloc);
    let told = gather(ran, &mut passes)?;
    let made = settled(rt, alloc, cache, passes)?;
    Ok((told, made))
}

// Values expire and are due, weights meet the bound, loads their limit, and the ring is short.
fn limits() -> Config {
    Config {
        after_write: Some(40),
        refresh: Some(9),
        flights: 3,
        ring: 7,
        ..config(12)
    }
}

// The one place that names the ledgers of these shards.
fn soaks<R: Threads + Wait + Abort + Sync>(
    rt: &R,
    alloc: Global,
    shards: usize,
) -> Result<(u64, u64), Fault> {
    soak::<Brand, R>(rt, alloc, Blanks::new(), &limits(), shards)
}

fn expect_none_missing(rt: &impl Abort, made: Result<(u64, u64), Fault>) {
    match made {
        Ok((told, made)) => same(
            rt,
            "the steps that were told, and those of the books",
            told,
            made,
        ),
        Err(fault) => same(rt, "no fault", Some(fault), None),
    }
}

#[test]
fn no_step_of_four_threads_is_missing_at_one_shard(rt: HostRuntime) -> Result<(), Fail> {
    expect_none_missing(&rt, soaks(&rt, rt.alloc(), 1));
    Ok(())
}

#[test]
fn no_step_of_four_threads_is_missing_at_four_shards(rt: HostRuntime) -> Result<(), Fail> {
    expect_none_missing(&rt, soaks(&rt, rt.alloc(), 4));
    Ok(())
}
