// The counts of a pass, and the settling of all passes.
ghost use Rattle.std.specs.Prelude.{◌≡◌};
ghost use Rattle.wt_shards.specs.Opening.{AreBlanksOf};

use super::caller::Caller;
use super::compare::same;
use super::{config, plain_answer};
use std::alloc::Global;
use std::marker::Brand;
use std::process::Abort;
use std::sync::Wait;
use std::test::Fail;
use wt_core::{Call, Config};
use wt_keys::Fault;
use wt_shards::{Blanks, Names, Of, Pass, Shards};
use wt_tests::{Loaded, PlainReply, light};

// Steps and hits at each of the four shards.
type Counts = [(u64, u64); 4];

// The caller puts and looks. Key 1 is of the last of four shards.
fn play<N: Names, R: Wait + Abort>(
    rt: &R,
    shards: &Shards<u64, Loaded, Of<N>>,
    caller: &mut Caller<Loaded, Of<N>>,
) {
    let put = caller.make(rt, shards, Call::Put(1, light(5), 0));
    same(
        rt,
        "a put and its step",
        plain_answer(put),
        (PlainReply::Stored, 1),
    );
    let look = caller.make(rt, shards, Call::Look(1, 0));
    same(
        rt,
        "a look and its step",
        plain_answer(look),
        (PlainReply::Hit(light(5)), 2),
    );
    same(
        rt,
        "steps and hits at key 1's shard",
        caller.made(3),
        (2, 1),
    );
    for shard in 0..3 {
        same(
            rt,
            "steps and hits at another shard",
            caller.made(shard),
            (0, 0),
        );
    }
}

// The result of one caller that puts and looks: its pass, or nothing.
fn passes_of_one<N: Names, R: Wait + Abort>(
    rt: &R,
    alloc: Global,
    shards: &Shards<u64, Loaded, Of<N>>,
    handed_back: bool,
) -> Result<Vec<Pass<u64, Loaded, Of<N>>>, Fault> {
    let mut passes = Vec::new(alloc);
    let mut caller = Caller::new(rt, alloc, shards)?;
    play(rt, shards, &mut caller);
    if handed_back {
        passes.push(caller.into_pass())?;
    }
    Ok(passes)
}

// The steps and hits that the settled books hold.
fn counts<N: Names, R: Wait + Abort>(
    rt: &R,
    alloc: Global,
    shards: Shards<u64, Loaded, Of<N>>,
    passes: Vec<Pass<u64, Loaded, Of<N>>>,
) -> Result<Counts, Fault> {
    let totals = match shards.settle(rt, alloc, passes) {
        Ok(totals) => totals,
        Err(fault) => return Err(fault),
    };
    let count = |shard: usize| totals.of(shard).map_or((99, 99), |t| (t.steps, t.hits));
    Ok([count(0), count(1), count(2), count(3)])
}

// One caller puts and looks, and its pass is handed back or not.
fn one_caller<N: Names, R: Wait + Abort>(
    rt: &R,
    alloc: Global,
    blanks: Blanks<u64, Loaded>,
    limits: &Config,
    handed_back: bool,
) -> Result<Counts, Fault>
    requires layout { N.layout ≡ record { shards = 4; config = limits.now } }
    requires blanks { AreBlanksOf N.name N.book blanks }
{
    let shards: Shards<u64, Loaded, Of<N>> = Shards::new(rt, alloc, blanks, limits, 4)?;
    let passes = passes_of_one(rt, alloc, &shards, handed_back)?;
    counts(rt, alloc, shards, passes)
}

#[test]
fn the_totals_are_the_sums_of_the_passes(rt: HostRuntime) -> Result<(), Fail> {
    let counts = one_caller::<Brand, HostRuntime>(
        &rt,
        rt.alloc(),
        Blanks::new(),
        &config(1000),
        true,
    );
    same(
        &rt,
        "steps and hits of the books",
        counts,
        Ok([(0, 0), (0, 0), (0, 0), (2, 1)]),
    );
    Ok(())
}

#[test]
fn a_missing_pass_is_told(rt: HostRuntime) -> Result<(), Fail> {
    let counts = one_caller::<Brand, HostRuntime>(
        &rt,
        rt.alloc(),
        Blanks::new(),
        &config(1000),
        false,
    );
    same(
        &rt,
        "a pass that is missing",
        counts,
        Err(Fault::PassMissing { shard: 3 }),
    );
    Ok(())
}
