// The shares of a shard's books, and the passes of shards.
ghost use Rattle.std.specs.Prelude.{◌≡◌};
ghost use Rattle.wt_shards.specs.Opening.{AreBlanksOf};

use super::compare::{holds, same};
use super::config;
use super::run::Run;
use super::scene::{Scene, plays};
use std::alloc::Global;
use std::marker::Brand;
use std::process::Abort;
use std::sync::Wait;
use std::test::Fail;
use wt_core::Config;
use wt_keys::Fault;
use wt_shards::{Blanks, Names, Of, Shards};
use wt_tests::{Do, Loaded, call_of, light};

fn spend_shares<N: Names>(rt: &impl Abort, run: &mut Run<Loaded, N>) {
    // The run has the first ones.
    for _ in 1..65_535 {
        holds(rt, "a share is given", run.spent().is_none());
    }
    same(
        rt,
        "the fault once all shares are given",
        run.spent(),
        Some(Fault::PassesSpent),
    );
    for (act, key) in [(Do::Put(light(1)), 1), (Do::Look, 1), (Do::Look, 2)] {
        holds(
            rt,
            "a step without shares left",
            run.make(call_of(act, key, 0)).is_ok(),
        );
    }
    same(rt, "the caller's steps and hits", run.counts(), (3, 1));
    same(
        rt,
        "the fault after the steps",
        run.spent(),
        Some(Fault::PassesSpent),
    );
}

#[derive(Drop)]
struct Spent {}

impl Scene<Loaded> for Spent {
    fn play<N: Names, R: Abort>(
        &self,
        rt: &R,
        _alloc: Global,
        _limits: &Config,
        run: &mut Run<Loaded, N>,
    ) -> Result<(), Fault> {
        spend_shares(rt, run);
        Ok(())
    }
}

#[test]
fn shares_are_spent_after_65535(rt: HostRuntime) -> Result<(), Fail> {
    plays(&rt, rt.alloc(), &config(1000), &Spent {})?;
    Ok(())
}

// The fault by which a further pass is refused.
fn refused<N: Names, R: Wait>(
    rt: &R,
    alloc: Global,
    shards: &Shards<u64, Loaded, Of<N>>,
) -> Option<Fault> {
    shards.pass(rt, alloc).err()
}

fn spend_passes<N: Names, R: Wait + Abort>(
    rt: &R,
    alloc: Global,
    shards: &Shards<u64, Loaded, Of<N>>,
) {
    for _ in 0..65_535 {
        same(rt, "a pass is given", refused(rt, alloc, shards), None);
    }
    same(
        rt,
        "the fault once all passes are given",
        refused(rt, alloc, shards),
        Some(Fault::PassesSpent),
    );
}

fn take_passes<N: Names, R: Wait + Abort>(
    rt: &R,
    alloc: Global,
    blanks: Blanks<u64, Loaded>,
    limits: &Config,
) -> Result<(), Fault>
    requires layout { N.layout ≡ record { shards = 4; config = limits.now } }
    requires blanks { AreBlanksOf N.name N.book blanks }
{
    let shards: Shards<u64, Loaded, Of<N>> = Shards::new(rt, alloc, blanks, limits, 4)?;
    spend_passes(rt, alloc, &shards);
    Ok(())
}

#[test]
fn passes_are_spent_after_65535(rt: HostRuntime) -> Result<(), Fail> {
    take_passes::<Brand, HostRuntime>(&rt, rt.alloc(), Blanks::new(), &config(1000))?;
    Ok(())
}
