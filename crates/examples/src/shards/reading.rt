// A caller looks a key up, and never gets a value that is older than `after_write`.
ghost use Rattle.std.specs.Prelude.{IfOk};
ghost use Rattle.wt_core.specs.declared.calls.Call.TheVariants.{Look};
ghost use Rattle.wt_shards.specs.Passes.{front_at};
ghost use Rattle.wt_shards.specs.Place.{home_of};
ghost use Rattle.wt_shards.specs.Served.{IsReadYoung};

use std::alloc::Global;
use std::sync::Wait;
use wt_core::{Notices, Reply};
use wt_keys::{CacheKey, Fault};
use wt_shards::{Books, Done, Pass, Shards, Value, reads_are_young};

/// Looks the key up.
///
/// The look-up is in the history of the key's shard. It hits only a value that a call before it in
/// this history put or loaded for the key, less than `after_write` before the look-up.
pub fn read<K: CacheKey, V: Value<K>, B: Books, R: Wait>(
    rt: &R,
    alloc: Global,
    shards: &Shards<K, V, B>,
    pass: &mut Pass<K, V, B>,
    key: K,
    now: u64,
) -> Result<Done<Reply<V>>, Fault>
    ensures { IfOk result (λ done. IsReadYoung K.eq K.word V.measure shards.now.config key now
        (Look key now) (front_at (home_of K.word key shards.now) pass.new) done.reply) }
{
    // For the prover: shows how old a served value may be.
    reads_are_young::<K, V>();
    let mut notices = Notices::new(alloc, shards.entries() as usize)?;
    let found = shards.look(rt, pass, key, now, &mut notices)?;
    Ok(found)
}
