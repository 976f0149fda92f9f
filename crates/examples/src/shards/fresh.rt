// One caller puts or removes a key, and another one that has met it seeks the key or looks it up: it
// gets nothing of an older load.
ghost use Rattle.std.specs.Prelude.{◌*◌, ◌≤◌, IfOk, IsTrue};
ghost use Rattle.wt_core.specs.declared.calls.Call.TheVariants.{DropKey, Look, Put, Seek};
ghost use Rattle.wt_shards.specs.Fresh.{IsReadFresh};
ghost use Rattle.wt_shards.specs.Passes.{front_at};
ghost use Rattle.wt_shards.specs.Place.{home_of};
ghost use Rattle.wt_shards.specs.Sought.{reply_of};

use std::sync::Wait;
use wt_core::{Notices, Reply};
use wt_keys::{CacheKey, Fault};
use wt_shards::{Books, Done, Pass, Shards, Sought, Value, reads_are_fresh};

/// Removes the key with one caller's pass, lets the other caller's pass meet it, and looks the key
/// up with that one.
///
/// The look-up hits only a value that somebody else put in between, or loaded by a load that began
/// behind the removal.
pub fn drop_and_look<K: CacheKey, V: Value<K>, B: Books, R: Wait>(
    rt: &R,
    shards: &Shards<K, V, B>,
    giver: &mut Pass<K, V, B>,
    taker: &mut Pass<K, V, B>,
    key: K,
    now: u64,
    notices: &mut Notices<K, V>,
) -> Result<(Done<bool>, Done<Reply<V>>), Fault>
    requires room { 2 * shards.now.config.entries ≤ notices.old.room }
    ensures { IfOk result (λ r. IsReadFresh K.eq K.word V.measure shards.now.config key
        (DropKey key now) (Look key now) r.0.step
        (front_at (home_of K.word key shards.now) taker.new) r.1.reply) }
{
    // For the prover: shows what a look behind a removal hits.
    reads_are_fresh::<K, V>();
    let dropped = shards.drop_key(rt, giver, key, now, notices)?;
    taker.meet(giver);
    let found = shards.look(rt, taker, key, now, notices)?;
    Ok((dropped, found))
}

/// Puts the value with one caller's pass, lets the other caller's pass meet it, and seeks the key
/// with that one.
///
/// The seek hits only that value, or one that somebody else put in between or loaded by a load that
/// began behind the put. If it joins a load, that began behind the put too.
pub fn put_and_seek<K: CacheKey, V: Value<K>, B: Books, R: Wait>(
    rt: &R,
    shards: &Shards<K, V, B>,
    giver: &mut Pass<K, V, B>,
    taker: &mut Pass<K, V, B>,
    key: K,
    value: V,
    now: u64,
    notices: &mut Notices<K, V>,
) -> Result<(Done<()>, Done<Sought<K, V>>), Fault>
    requires answers { IsTrue (V.answers value key) }
    requires room { 2 * shards.now.config.entries ≤ notices.old.room }
    ensures { IfOk result (λ r. IsReadFresh K.eq K.word V.measure shards.now.config key
        (Put key value now) (Seek key now) r.0.step
        (front_at (home_of K.word key shards.now) taker.new) (reply_of r.1.reply)) }
{
    // For the prover: shows what a seek behind a put hits and joins.
    reads_are_fresh::<K, V>();
    let stored = shards.put(rt, giver, key, value, now, notices)?;
    taker.meet(giver);
    let sought = shards.seek(rt, taker, key, now, notices)?;
    Ok((stored, sought))
}
