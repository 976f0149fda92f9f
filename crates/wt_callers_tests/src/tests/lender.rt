// The lender's lock: a lend that waits for a shard doesn't hold it.
ghost use Rattle.std.specs.Prelude.{◌≡◌};
ghost use Rattle.wt_shards.specs.Opening.{AreBlanksOf};

use super::apart::Freely;
use super::compare::same;
use std::alloc::Global;
use std::marker::Brand;
use std::sync::{Arc, Wait};
use std::test::Fail;
use std::thread;
use std::thread::Threads;
use wt_cache::{Callers, LoadingCache};
use wt_core::{Config, Reply};
use wt_keys::Fault;
use wt_shards::{Blanks, Names, Of, Shards};
use wt_tests::{Gate, Gated};

// A cache of gated values that lends callers.
type Lender<N> = Callers<u64, Gated, Freely, Of<N>>;

// Looks a gated value up once another caller is lent, which holds the shard. Whether it hits.
fn holds_shard<N: Names, R: Wait>(
    rt: &R,
    callers: &Lender<N>,
    lent: &Gate,
    gated: Gated,
) -> Result<bool, Fault> {
    let other = lent.begins();
    let mut caller = callers.lend(rt)?;
    let put = caller.put(1, gated, 0);
    let looked = caller.get_if_present(1, 0);
    caller.give_back();
    put?;
    Ok(other && matches!(looked?.reply, Reply::Hit(_)))
}

// Lends a third caller while the shard is held, which takes a new pass. Whether it was held.
fn lends_third<N: Names, R: Wait>(
    rt: &R,
    callers: &Lender<N>,
    lent: &Gate,
    held: &Gate,
) -> Result<bool, Fault> {
    let begun = held.begins();
    lent.open();
    callers.lend(rt)?.give_back();
    Ok(begun)
}

// Gives a caller back once the third is being lent, and lets the shard go then. Whether it was.
fn gives_back<N: Names, R: Wait>(
    rt: &R,
    callers: &Lender<N>,
    lent: &Gate,
    held: &Gate,
) -> Result<bool, Fault> {
    let caller = callers.lend(rt)?;
    let third = lent.passes();
    for _ in 0..1_000u32 {
        thread::yield_now();
    }
    caller.give_back();
    held.open();
    Ok(third)
}

// Whether the look hits, the shard is held while a third caller is lent, and another one is given
// back meanwhile.
type Seen = (bool, bool, bool);

// One caller holds the shard, another is lent meanwhile, and a third gives its pass back.
fn lends_apart<N: Names + Send + Sync, R: Threads + Wait + Sync>(
    rt: &R,
    callers: &Lender<N>,
    lent: &Gate,
    held: &Gate,
    gated: Gated,
) -> Result<Seen, Fault> {
    let (hit, (third, back)) = thread::join(
        rt,
        || holds_shard(rt, callers, lent, gated),
        || {
            thread::join(
                rt,
                || lends_third(rt, callers, lent, held),
                || gives_back(rt, callers, lent, held),
            )
        },
    );
    Ok((hit?, third?, back?))
}

// The gate of a value, the value, and the gate for the lends beside it.
type Gates = (Arc<Gate, Global>, Gated, Arc<Gate, Global>);

fn gates(alloc: Global) -> Result<Gates, Fault> {
    let held = Gate::new(alloc)?;
    let gated = Gated::by(Arc::try_clone(&held)?);
    let lent = Gate::new(alloc)?;
    Ok((held, gated, lent))
}

fn lend_apart<N: Names + Send + Sync, R: Threads + Wait + Sync>(
    rt: &R,
    alloc: Global,
    blanks: Blanks<u64, Gated>,
    limits: &Config,
) -> Result<Seen, Fault>
    requires layout { N.layout ≡ record { shards = 1; config = limits.now } }
    requires blanks { AreBlanksOf N.name N.book blanks }
{
    let (held, gated, lent) = gates(alloc)?;
    let shards: Shards<u64, Gated, Of<N>> = Shards::new(rt, alloc, blanks, limits, 1)?;
    let callers: Lender<N> = Callers::new(alloc, LoadingCache::new(shards, Freely {}, None));
    lends_apart(rt, &callers, &lent, &held, gated)
}

#[test]
fn a_lend_that_waits_for_a_shard_holds_no_lender(rt: HostRuntime) -> Result<(), Fail> {
    let seen = lend_apart::<Brand, HostRuntime>(&rt, rt.alloc(), Blanks::new(), &Config::of(4));
    same(
        &rt,
        "the look, the third lend, and what is given back meanwhile",
        seen,
        Ok((true, true, true)),
    );
    Ok(())
}
