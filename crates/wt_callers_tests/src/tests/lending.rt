// Callers that are lent: more of them in a row than there are passes, what comes back, and that all
// their passes settle. On one shard and on four.
ghost use Rattle.std.specs.Prelude.{◌≡◌};
ghost use Rattle.wt_shards.specs.Opening.{AreBlanksOf};

use super::at_once::all_at_once;
use super::compare::{holds, same};
use std::alloc::Global;
use std::marker::Brand;
use std::process::Abort;
use std::sync::Wait;
use std::test::Fail;
use std::thread;
use std::thread::Threads;
use wt_cache::{Caller, Callers, Keyed, Loader, LoadingCache};
use wt_core::Config;
use wt_keys::Fault;
use wt_shards::{Blanks, Names, Of, Shards};

// A number that knows its key.
pub(super) type Number = Keyed<u64, u64>;

// A source that has 0 for each key.
#[derive(Drop)]
pub(super) struct Zeros {}

impl Loader<u64, Number> for Zeros {
    fn load(&self, key: &u64) -> Result<Number, u32> {
        let key = *key;
        Ok(Keyed { key, value: 0 })
    }
}

// A cache of numbers that lends callers.
pub(super) type Lender<N> = Callers<u64, Number, Zeros, Of<N>>;

// A caller of it.
type Lent<'c, N, R> = Caller<'c, u64, Number, Zeros, Of<N>, R>;

// The work with the callers.
#[derive(Clone, Copy, Debug, PartialEq, Eq)]
pub(super) enum Play {
    InARow,
    // All passes but one are taken by hand.
    Scarce,
    // So many callers, each of another thread.
    AtOnce(usize),
    Beside,
    Refused,
}

// The end of a cache: its passes, and the steps and hits of the settled books.
pub(super) type Ended = (usize, u64, u64);

// Gets the number of a key by a caller that is lent for it.
fn ask<N: Names, R: Wait>(rt: &R, callers: &Lender<N>, key: u64) -> Result<u64, Fault> {
    let mut caller = callers.lend(rt)?;
    let got = caller.get(key, 0);
    caller.give_back();
    Ok(got?.value.value)
}

// Lends a caller 70,000 times, each for one get of key 1.
fn in_a_row<N: Names, R: Wait + Abort>(rt: &R, callers: &Lender<N>) -> Result<(), Fault> {
    for _ in 0..70_000u64 {
        same(rt, "a caller's get", ask(rt, callers, 1)?, 0);
    }
    Ok(())
}

// Whether no caller is lent any more.
fn spent<N: Names, R: Wait>(rt: &R, callers: &Lender<N>) -> bool {
    match callers.lend(rt) {
        Ok(caller) => {
            caller.give_back();
            false
        }
        Err(fault) => fault == Fault::PassesSpent,
    }
}

// Takes all passes but one by hand. While the last one is lent there is no caller.
fn scarce<N: Names, R: Wait + Abort>(
    rt: &R,
    alloc: Global,
    callers: &Lender<N>,
) -> Result<(), Fault> {
    for _ in 0..65_534u64 {
        let _pass = callers.cache().pass(rt, alloc)?;
    }
    let caller = callers.lend(rt)?;
    let none = spent(rt, callers);
    caller.give_back();
    holds(rt, "no caller while the last pass is lent", none);
    holds(rt, "a caller once it is given back", !spent(rt, callers));
    Ok(())
}

// Gets 1,000 values, each by a caller of its own.
fn asks<N: Names, R: Wait>(rt: &R, callers: &Lender<N>) -> Result<(), Fault> {
    for round in 0..1000u64 {
        ask(rt, callers, round % 4)?;
    }
    Ok(())
}

// Four threads get beside each other.
fn beside<N: Names + Send + Sync, R: Threads + Wait + Sync>(
    rt: &R,
    alloc: Global,
    callers: &Lender<N>,
) -> Result<(), Fault> {
    let asked = thread::map_indices(
        rt,
        alloc,
        4,
        &|_thread: usize| -> Result<(), Fault> { asks(rt, callers) },
    )?;
    for done in asked {
        done?;
    }
    Ok(())
}

// Lends a caller, a second time where memory was refused.
fn insist<'c, N: Names, R: Wait>(
    rt: &'c R,
    callers: &'c Lender<N>,
) -> Result<Lent<'c, N, R>, Fault> {
    match callers.lend(rt) {
        Err(Fault::NoMemory) => callers.lend(rt),
        lent => lent,
    }
}

// Lends two callers at once, whichever allocation is refused.
fn refused<N: Names, R: Wait>(rt: &R, callers: &Lender<N>) -> Result<(), Fault> {
    let one = insist(rt, callers)?;
    let other = insist(rt, callers);
    one.give_back();
    other?.give_back();
    Ok(())
}

// Ends a cache: all passes that were ever lent are there, and settle.
fn end_cache<N: Names, R: Wait + Abort>(
    rt: &R,
    alloc: Global,
    callers: Lender<N>,
    count: usize,
) -> Result<Ended, Fault> {
    let (shards, returned) = callers.finish();
    let counted = (returned.came(), returned.lent());
    let passes = returned.passes();
    let made = passes.len();
    same(
        rt,
        "passes that came back, and are lent",
        counted,
        (made, 0),
    );
    let totals = shards.settle(rt, alloc, passes)?;
    let mut steps = 0u64;
    let mut hits = 0u64;
    for shard in 0..count {
        if let Some(total) = totals.of(shard) {
            steps = steps.wrapping_add(total.steps);
            hits = hits.wrapping_add(total.hits);
        }
    }
    Ok((made, steps, hits))
}

// Does with the callers what is to be done.
fn act<N: Names + Send + Sync, R: Threads + Wait + Abort + Sync>(
    rt: &R,
    alloc: Global,
    callers: &Lender<N>,
    play: Play,
) -> Result<(), Fault> {
    match play {
        Play::InARow => in_a_row(rt, callers),
        Play::Scarce => scarce(rt, alloc, callers),
        Play::AtOnce(threads) => all_at_once(rt, alloc, callers, threads),
        Play::Beside => beside(rt, alloc, callers),
        Play::Refused => refused(rt, callers),
    }
}

// Plays on a cache of `count` shards.
fn played<N: Names + Send + Sync, R: Threads + Wait + Abort + Sync>(
    rt: &R,
    alloc: Global,
    blanks: Blanks<u64, Number>,
    config: &Config,
    count: usize,
    play: Play,
) -> Result<Ended, Fault>
    requires layout { N.layout ≡ record { shards = count; config = config.now } }
    requires blanks { AreBlanksOf N.name N.book blanks }
{
    let shards: Shards<u64, Number, Of<N>> = Shards::new(rt, alloc, blanks, config, count)?;
    let callers: Lender<N> = Callers::new(alloc, LoadingCache::new(shards, Zeros {}, None));
    act(rt, alloc, &callers, play)?;
    end_cache(rt, alloc, callers, count)
}

// The one place that names the ledgers of these caches.
fn plays_at<R: Threads + Wait + Abort + Sync>(
    rt: &R,
    alloc: Global,
    config: &Config,
    count: usize,
    play: Play,
) -> Result<Ended, Fault> {
    played::<Brand, R>(rt, alloc, Blanks::new(), config, count, play)
}

// Plays on one shard and on four: what both ended with.
pub(super) fn plays<R: Threads + Wait + Abort + Sync>(
    rt: &R,
    alloc: Global,
    play: Play,
) -> Result<[Ended; 2], Fault> {
    let config = Config::of(4);
    Ok([
        plays_at(rt, alloc, &config, 1, play)?,
        plays_at(rt, alloc, &config, 4, play)?,
    ])
}

// The first get makes a seek and a landing, each other one a hit.
#[test]
fn more_callers_are_lent_in_a_row_than_there_are_passes(rt: HostRuntime) -> Result<(), Fail> {
    let ends = plays(&rt, rt.alloc(), Play::InARow)?;
    same(
        &rt,
        "passes, steps and hits",
        ends,
        [(1, 70_001, 69_999), (1, 70_001, 69_999)],
    );
    Ok(())
}

#[test]
fn callers_are_refused_while_all_passes_are_lent(rt: HostRuntime) -> Result<(), Fail> {
    let ends = plays(&rt, rt.alloc(), Play::Scarce)?;
    same(&rt, "passes, steps and hits", ends, [(1, 0, 0), (1, 0, 0)]);
    Ok(())
}

#[test]
fn callers_of_many_threads_settle(rt: HostRuntime) -> Result<(), Fail> {
    for (passes, steps, hits) in plays(&rt, rt.alloc(), Play::Beside)? {
        holds(&rt, "one pass to four", 1 <= passes && passes <= 4);
        holds(
            &rt,
            "4000 steps and more, fewer hits",
            4000 <= steps && hits < 4000,
        );
    }
    Ok(())
}

#[test]
fn a_lend_that_is_refused_memory_loses_no_pass(rt: HostRuntime) -> Result<(), Fail> {
    let config = Config::of(4);
    let mut ends = plays_at(&rt, rt.alloc(), &config, 1, Play::Refused);
    if ends == Err(Fault::NoMemory) {
        ends = plays_at(&rt, rt.alloc(), &config, 1, Play::Refused);
    }
    same(&rt, "passes, steps and hits", ends, Ok((2, 0, 0)));
    Ok(())
}
