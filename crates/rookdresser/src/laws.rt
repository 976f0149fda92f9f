// Laws of the definitions, each as the promise of a function that does nothing.
ghost use Rattle.wt_shards.specs.Members.{members_of};
ghost use Rattle.wt_cache.specs.Loads.{MayReturn};
ghost use Rattle.rookdresser.specs.Young.{GetsYoung, LooksYoung};

use wt_cache::Loader;
use wt_keys::CacheKey;
use wt_shards::{Value, found_values_are_young, reads_are_young};

/// A `get` returns only a value that was stored for its key less than `after_write` before, or one of
/// a load that it opened or joined.
///
/// A put or a landing stored it, in the history of the key's shard that the caller then has seen. A
/// value with a life of its own has lived less than that. A law of the definitions: the function does
/// nothing, and takes no memory.
pub fn got_values_are_young<K: CacheKey, V: Value<K>, L: Loader<K, V>>()
    ensures { GetsYoung (members_of K.CacheKey V.Value) (MayReturn L.may_return) }
{
    // For the prover: show how old a value may be that a peek or a seek finds.
    found_values_are_young::<K, V>();
    reads_are_young::<K, V>();
}

/// A `look` returns only a value that was stored for its key less than `after_write` before.
///
/// As `got_values_are_young` says of what is there. A law of the definitions: the function does
/// nothing, and takes no memory.
pub fn looked_up_values_are_young<K: CacheKey, V: Value<K>>()
    ensures { LooksYoung (members_of K.CacheKey V.Value) }
{
    // For the prover: show how old a value may be that a peek or a look finds.
    found_values_are_young::<K, V>();
    reads_are_young::<K, V>();
}
