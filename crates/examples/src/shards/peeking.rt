// A caller peeks at what another one put: the laws of peeks, by their contracts alone.
ghost use Rattle.std.specs.Prelude.{◌≤◌, IfOk, IsTrue};
ghost use Rattle.wt_shards.specs.Passes.{front_at};
ghost use Rattle.wt_shards.specs.Peeks.{FoundOnly, IsPeekBehindPut};
ghost use Rattle.wt_shards.specs.Place.{home_of};
ghost use Rattle.wt_shards.specs.Served.{IsBroughtYoung};

use std::sync::Wait;
use wt_core::Notices;
use wt_keys::{CacheKey, Fault};
use wt_shards::{Books, Done, Pass, Shards, Value, found_values_are_young, own_put_is_found};

/// Puts the value with one caller's pass, lets the other caller's pass meet it, and peeks at the
/// key with that one.
///
/// The put is in the history that the peek shows. So the peek finds only that value, or one that
/// somebody else put or loaded for the key behind the put.
pub fn put_and_peek<K: CacheKey, V: Value<K>, B: Books, R: Wait>(
    rt: &R,
    shards: &Shards<K, V, B>,
    giver: &mut Pass<K, V, B>,
    taker: &mut Pass<K, V, B>,
    key: K,
    value: V,
    now: u64,
    notices: &mut Notices<K, V>,
) -> Result<(Done<()>, Option<V>), Fault>
    requires answers { IsTrue (V.answers value key) }
    requires room { shards.now.config.entries ≤ notices.old.room }
    ensures { IfOk result (λ r. IsPeekBehindPut K.eq K.word V.measure shards.now.config key
        value now r.0.step (front_at (home_of K.word key shards.now) taker.new) r.1) }
{
    // For the prover: shows what a peek behind a put finds.
    own_put_is_found::<K, V>();
    let stored = shards.put(rt, giver, key, value, now, notices)?;
    taker.meet(giver);
    let found = shards.peek(rt, taker, key, now)?;
    Ok((stored, found))
}

/// Peeks at the key.
///
/// It finds only a value that a call of the history which it shows put or loaded for the key, less
/// than `after_write` before.
pub fn peek<K: CacheKey, V: Value<K>, B: Books, R: Wait>(
    rt: &R,
    shards: &Shards<K, V, B>,
    pass: &mut Pass<K, V, B>,
    key: K,
    now: u64,
) -> Result<Option<V>, Fault>
    ensures { IfOk result (FoundOnly (IsBroughtYoung K.eq K.word V.measure shards.now.config
        (front_at (home_of K.word key shards.now) pass.new) key now)) }
{
    // For the prover: shows how old a found value may be.
    found_values_are_young::<K, V>();
    let found = shards.peek(rt, pass, key, now)?;
    Ok(found)
}
