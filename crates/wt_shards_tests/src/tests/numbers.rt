// The numbers of four shards, added up, which a pass is shown.
ghost use Rattle.std.specs.Prelude.{◌≡◌};
ghost use Rattle.wt_shards.specs.Opening.{AreBlanksOf};

use super::caller::Caller;
use super::compare::same;
use super::config;
use std::alloc::Global;
use std::marker::Brand;
use std::process::Abort;
use std::sync::Wait;
use std::test::Fail;
use wt_core::{Call, Config, Land, Stats};
use wt_keys::Fault;
use wt_shards::{Blanks, Names, Of, Shards};
use wt_tests::{Loaded, light};

// Two puts, two hits, a miss, a load that is kept and one that fails. The keys 1 to 5 are of all
// four shards.
fn calls(id: u64) -> [Call<u64, Loaded>; 9] {
    [
        Call::Put(1, light(5), 0),
        Call::Put(2, light(6), 0),
        Call::Look(1, 0),
        Call::Look(2, 0),
        Call::Look(3, 0),
        Call::Seek(3, 0),
        Call::Land(id, 3, Land::Keep(light(7)), 0),
        Call::Seek(4, 0),
        Call::Land(id, 4, Land::Failed, 0),
    ]
}

// One caller makes the calls, and another one, which makes none, is shown the numbers: these, and
// its own steps and hits at each shard.
fn shown<N: Names, R: Wait + Abort>(
    rt: &R,
    alloc: Global,
    blanks: Blanks<u64, Loaded>,
    limits: &Config,
) -> Result<(Stats, [(u64, u64); 4]), Fault>
    requires layout { N.layout ≡ record { shards = 4; config = limits.now } }
    requires blanks { AreBlanksOf N.name N.book blanks }
{
    let shards: Shards<u64, Loaded, Of<N>> = Shards::new(rt, alloc, blanks, limits, 4)?;
    made(rt, alloc, &shards)?;
    let mut other = Caller::new(rt, alloc, &shards)?;
    let stats = other.seen_stats(rt, &shards);
    Ok((
        stats,
        [other.made(0), other.made(1), other.made(2), other.made(3)],
    ))
}

// A caller that makes the calls.
fn made<N: Names, R: Wait + Abort>(
    rt: &R,
    alloc: Global,
    shards: &Shards<u64, Loaded, Of<N>>,
) -> Result<(), Fault> {
    let mut caller = Caller::new(rt, alloc, shards)?;
    for call in calls(1) {
        let answer = caller.make(rt, shards, call);
        same(rt, "the call's fault", answer.err(), None);
    }
    Ok(())
}

// The same. The one place that names the ledgers of these shards.
fn shows<R: Wait + Abort>(
    rt: &R,
    alloc: Global,
    limits: &Config,
) -> Result<(Stats, [(u64, u64); 4]), Fault> {
    shown::<Brand, R>(rt, alloc, Blanks::new(), limits)
}

#[test]
fn the_numbers_of_four_shards_are_shown_to_a_pass(rt: HostRuntime) -> Result<(), Fail> {
    let shown = shows(&rt, rt.alloc(), &config(1000));
    let stats = Stats {
        lookups: 5,
        hits: 2,
        misses: 3,
        loads: 1,
        failed: 1,
        evicted: 0,
        entries: 3,
        weight: 3,
    };
    same(
        &rt,
        "the numbers, and the steps and hits of their reader",
        shown,
        Ok((stats, [(0, 0); 4])),
    );
    Ok(())
}
