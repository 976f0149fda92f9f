// One caller puts a value, and another one that has met it looks the key up: it gets no older
// value.
ghost use Rattle.std.specs.Prelude.{◌*◌, ◌≤◌, IfOk, IsTrue};
ghost use Rattle.wt_shards.specs.Passes.{front_at};
ghost use Rattle.wt_shards.specs.Place.{home_of};
ghost use Rattle.wt_shards.specs.Served.{IsHandedOver};

use std::sync::Wait;
use wt_core::{Notices, Reply};
use wt_keys::{CacheKey, Fault};
use wt_shards::{Books, Done, Pass, Shards, Value, own_put_is_read};

/// Puts the value with one caller's pass, lets the other caller's pass meet it, and looks the key
/// up with that one.
///
/// Both calls are in the one history of the key's shard, the look-up behind the put. So it hits
/// only that value, or one that somebody else put or loaded for the key in between. A load that was
/// opened before the put doesn't count.
pub fn hand_over<K: CacheKey, V: Value<K>, B: Books, R: Wait>(
    rt: &R,
    shards: &Shards<K, V, B>,
    giver: &mut Pass<K, V, B>,
    taker: &mut Pass<K, V, B>,
    key: K,
    value: V,
    now: u64,
    notices: &mut Notices<K, V>,
) -> Result<(Done<()>, Done<Reply<V>>), Fault>
    requires answers { IsTrue (V.answers value key) }
    requires room { 2 * shards.now.config.entries ≤ notices.old.room }
    ensures { IfOk result (λ r. IsHandedOver K.eq K.word V.measure shards.now.config key value now
        now r.0.step (front_at (home_of K.word key shards.now) taker.new) r.1.reply) }
{
    // For the prover: shows what a look behind a put hits.
    own_put_is_read::<K, V>();
    let stored = shards.put(rt, giver, key, value, now, notices)?;
    taker.meet(giver);
    let found = shards.look(rt, taker, key, now, notices)?;
    Ok((stored, found))
}
