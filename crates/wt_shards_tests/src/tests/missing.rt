// A pass that is missing is named by its shard, and of two shards by the first.
ghost use Rattle.std.specs.Prelude.{◌≡◌};
ghost use Rattle.wt_shards.specs.Opening.{AreBlanksOf};

use super::caller::Caller;
use super::compare::same;
use super::config;
use std::alloc::Global;
use std::marker::Brand;
use std::process::Abort;
use std::sync::Wait;
use std::test::Fail;
use wt_core::{Call, Config};
use wt_keys::Fault;
use wt_shards::{Blanks, Names, Of, Pass, Shards};
use wt_tests::Loaded;

// A shard of four, and a key of it.
type Home = (u32, u64);

const HOMES: [Home; 4] = [(0, 4), (1, 3), (2, 2), (3, 1)];

// A new caller makes one step at each of these shards: its pass.
fn looks<N: Names, R: Wait + Abort>(
    rt: &R,
    alloc: Global,
    shards: &Shards<u64, Loaded, Of<N>>,
    homes: &[Home],
) -> Result<Pass<u64, Loaded, Of<N>>, Fault> {
    let mut caller = Caller::new(rt, alloc, shards)?;
    for home in homes {
        let (shard, key) = *home;
        let look = caller.make(rt, shards, Call::Look(key, 0));
        same(rt, "a look's fault", look.err(), None);
        same(
            rt,
            "steps and hits at the key's shard",
            caller.made(shard as usize),
            (1, 0),
        );
    }
    Ok(caller.into_pass())
}

// The passes of two callers, of which one made a step at each shard, and the other at these alone;
// that one is lost.
fn kept_passes<N: Names, R: Wait + Abort>(
    rt: &R,
    alloc: Global,
    shards: &Shards<u64, Loaded, Of<N>>,
    lost: &[Home],
) -> Result<Vec<Pass<u64, Loaded, Of<N>>>, Fault> {
    let mut passes = Vec::new(alloc);
    passes.push(looks(rt, alloc, shards, &HOMES)?)?;
    let _lost = looks(rt, alloc, shards, lost)?;
    Ok(passes)
}

// Settles four shards whose lost pass made a step at each of these: the fault, if there is one.
fn settled<N: Names, R: Wait + Abort>(
    rt: &R,
    alloc: Global,
    blanks: Blanks<u64, Loaded>,
    limits: &Config,
    lost: &[Home],
) -> Result<Option<Fault>, Fault>
    requires layout { N.layout ≡ record { shards = 4; config = limits.now } }
    requires blanks { AreBlanksOf N.name N.book blanks }
{
    let shards: Shards<u64, Loaded, Of<N>> = Shards::new(rt, alloc, blanks, limits, 4)?;
    let passes = kept_passes(rt, alloc, &shards, lost)?;
    Ok(shards.settle(rt, alloc, passes).err())
}

// The same. The one place that names the ledgers of these shards.
fn settles<R: Wait + Abort>(
    rt: &R,
    alloc: Global,
    limits: &Config,
    lost: &[Home],
) -> Result<Option<Fault>, Fault> {
    settled::<Brand, R>(rt, alloc, Blanks::new(), limits, lost)
}

#[test]
fn a_missing_pass_is_named_by_its_shard(rt: HostRuntime) -> Result<(), Fail> {
    for home in HOMES {
        let (shard, _key) = home;
        same(
            &rt,
            "the shard of the missing pass",
            settles(&rt, rt.alloc(), &config(1000), &[home])?,
            Some(Fault::PassMissing { shard }),
        );
    }
    Ok(())
}

#[test]
fn the_first_shard_of_a_missing_pass_is_named(rt: HostRuntime) -> Result<(), Fail> {
    for first in HOMES {
        for second in HOMES {
            let shard = first.0.min(second.0);
            if first.0 != second.0 {
                same(
                    &rt,
                    "the first shard of the missing pass",
                    settles(&rt, rt.alloc(), &config(1000), &[first, second])?,
                    Some(Fault::PassMissing { shard }),
                );
            }
        }
    }
    Ok(())
}
