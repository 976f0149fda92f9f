// A call of the cache takes the lock of its key's shard alone: while one look holds its shard, each
// call at another shard goes on.
ghost use Rattle.std.specs.Prelude.{◌≡◌};
ghost use Rattle.wt_shards.specs.Opening.{AreBlanksOf};

use super::compare::same;
use std::alloc::Global;
use std::marker::Brand;
use std::sync::{Arc, Wait};
use std::test::Fail;
use std::thread;
use std::thread::Threads;
use wt_cache::{How, Loader, LoadingCache};
use wt_core::{Config, Notices, Reply};
use wt_keys::Fault;
use wt_shards::{Blanks, Names, Of, Pass, Shards};
use wt_tests::{Gate, Gated};

// A loader of values whose shares wait for nothing.
#[derive(Drop)]
pub(super) struct Freely {}

impl Loader<u64, Gated> for Freely {
    fn load(&self, _key: &u64) -> Result<Gated, u32> {
        Ok(Gated::free())
    }
}

type GatedCache<N> = LoadingCache<u64, Gated, Freely, Of<N>>;

fn is_present<N: Names, R: Wait>(
    rt: &R,
    alloc: Global,
    cache: &GatedCache<N>,
    pass: &mut Pass<u64, Gated, Of<N>>,
    key: u64,
) -> Result<bool, Fault> {
    let mut notices = Notices::new(alloc, cache.entries() as usize)?;
    let done = cache.get_if_present(rt, pass, key, 0, &mut notices)?;
    Ok(matches!(done.reply, Reply::Hit(_)))
}

fn put<N: Names, R: Wait>(
    rt: &R,
    alloc: Global,
    cache: &GatedCache<N>,
    pass: &mut Pass<u64, Gated, Of<N>>,
    key: u64,
    value: Gated,
) -> Result<(), Fault> {
    let mut notices = Notices::new(alloc, cache.entries() as usize)?;
    cache.put(rt, pass, key, value, 0, &mut notices)?;
    Ok(())
}

fn gets<N: Names, R: Wait>(
    rt: &R,
    alloc: Global,
    cache: &GatedCache<N>,
    pass: &mut Pass<u64, Gated, Of<N>>,
    key: u64,
) -> Result<How, Fault> {
    let mut notices = Notices::new(alloc, 2 * cache.entries() as usize)?;
    let got = cache.get(rt, pass, key, 0, &mut notices)?;
    Ok(got.how)
}

fn drops<N: Names, R: Wait>(
    rt: &R,
    alloc: Global,
    cache: &GatedCache<N>,
    pass: &mut Pass<u64, Gated, Of<N>>,
    key: u64,
) -> Result<bool, Fault> {
    let mut notices = Notices::new(alloc, cache.entries() as usize)?;
    let done = cache.invalidate(rt, pass, key, 0, &mut notices)?;
    Ok(done.reply)
}

fn forgets<N: Names, R: Wait>(
    rt: &R,
    alloc: Global,
    cache: &GatedCache<N>,
    pass: &mut Pass<u64, Gated, Of<N>>,
    key: u64,
) -> Result<bool, Fault> {
    let mut notices = Notices::new(alloc, cache.entries() as usize)?;
    let done = cache.forget(rt, pass, key, 0, &mut notices)?;
    Ok(done.reply)
}

// Whether each call on a key that isn't there meets what it is to meet.
fn calls_meet<N: Names, R: Wait>(
    rt: &R,
    alloc: Global,
    cache: &GatedCache<N>,
    pass: &mut Pass<u64, Gated, Of<N>>,
    key: u64,
) -> Result<bool, Fault> {
    let loaded = gets(rt, alloc, cache, pass, key)?;
    let hit = gets(rt, alloc, cache, pass, key)?;
    put(rt, alloc, cache, pass, key, Gated::free())?;
    let present = is_present(rt, alloc, cache, pass, key)?;
    let dropped = drops(rt, alloc, cache, pass, key)?;
    let forgot = forgets(rt, alloc, cache, pass, key)?;
    Ok(loaded == How::Loaded && hit == How::Hit && present && dropped && !forgot)
}

// Makes each call on key 3 once the gate is reached, and then opens it.
fn calls_beside<N: Names, R: Wait>(
    rt: &R,
    alloc: Global,
    cache: &GatedCache<N>,
    pass: &mut Pass<u64, Gated, Of<N>>,
    gate: &Gate,
) -> Result<bool, Fault> {
    let begun = gate.begins();
    let met = calls_meet(rt, alloc, cache, pass, 3);
    gate.open();
    Ok(begun && met?)
}

// Of four shards key 4 is of number 0, key 3 of number 1.
fn looks_apart<N: Names + Send + Sync, R: Threads + Wait + Sync>(
    rt: &R,
    alloc: Global,
    cache: &GatedCache<N>,
    (a, b): (&mut Pass<u64, Gated, Of<N>>, &mut Pass<u64, Gated, Of<N>>),
    gate: &Gate,
    gated: Gated,
) -> Result<(bool, bool), Fault> {
    put(rt, alloc, cache, a, 4, gated)?;
    let (present, met) = thread::join(
        rt,
        || is_present(rt, alloc, cache, a, 4),
        || calls_beside(rt, alloc, cache, b, gate),
    );
    Ok((present?, met?))
}

// Two passes, made here so that whoever makes them has one exit at which it drops neither.
fn two_passes<N: Names, R: Wait>(
    rt: &R,
    alloc: Global,
    cache: &GatedCache<N>,
) -> Result<(Pass<u64, Gated, Of<N>>, Pass<u64, Gated, Of<N>>), Fault> {
    let a = cache.pass(rt, alloc)?;
    let b = cache.pass(rt, alloc)?;
    Ok((a, b))
}

// With two passes of its own.
fn looks_by_two<N: Names + Send + Sync, R: Threads + Wait + Sync>(
    rt: &R,
    alloc: Global,
    cache: &GatedCache<N>,
    gate: &Gate,
    gated: Gated,
) -> Result<(bool, bool), Fault> {
    let (mut a, mut b) = two_passes(rt, alloc, cache)?;
    looks_apart(rt, alloc, cache, (&mut a, &mut b), gate, gated)
}

fn look_apart<N: Names + Send + Sync, R: Threads + Wait + Sync>(
    rt: &R,
    alloc: Global,
    blanks: Blanks<u64, Gated>,
    limits: &Config,
) -> Result<(bool, bool), Fault>
    requires layout { N.layout ≡ record { shards = 4; config = limits.now } }
    requires blanks { AreBlanksOf N.name N.book blanks }
{
    let gate = Gate::new(alloc)?;
    let gated = Gated::by(Arc::try_clone(&gate)?);
    let shards: Shards<u64, Gated, Of<N>> = Shards::new(rt, alloc, blanks, limits, 4)?;
    let cache: GatedCache<N> = LoadingCache::new(shards, Freely {}, None);
    looks_by_two(rt, alloc, &cache, &gate, gated)
}

#[test]
fn a_call_takes_the_lock_of_its_shard_alone(rt: HostRuntime) -> Result<(), Fail> {
    let seen = look_apart::<Brand, HostRuntime>(&rt, rt.alloc(), Blanks::new(), &Config::of(4));
    same(
        &rt,
        "the look at one shard, and the calls at another",
        seen,
        Ok((true, true)),
    );
    Ok(())
}
