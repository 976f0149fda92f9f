// Two requests, each by a caller that is lent for it alone. The second one gets the sight of the
// first, and so reads what that one has put, or a value that came later.
ghost use Rattle.std.specs.Prelude.{IfOk, IsTrue};
ghost use Rattle.wt_shards.specs.Members.{members_of};
ghost use Rattle.examples.specs.Requests.{EndsWithPut, ReadsPuts, shown};

use std::sync::Wait;
use wt_cache::{Callers, Loader};
use wt_core::Reply;
use wt_keys::{CacheKey, Fault};
use wt_shards::{Books, Done, Sight, Value, own_put_is_read};

/// The first request: puts the value, and returns what its caller has seen, for the next request.
pub fn first_request<K: CacheKey, V: Value<K>, L: Loader<K, V> + Drop, B: Books, R: Wait>(
    rt: &R,
    callers: &Callers<K, V, L, B>,
    key: K,
    value: V,
    now: u64,
) -> Result<(Done<()>, Sight<K, V, B>), Fault>
    requires answers { IsTrue (V.answers value key) }
    // The sight ends with the put, at the key's shard.
    ensures { IfOk result (λ r. EndsWithPut (members_of K.CacheKey V.Value) callers.now.layout key
        value now r.0.step (shown (members_of K.CacheKey V.Value) callers.now.layout key r.1)) }
{
    let mut caller = callers.lend(rt)?;
    let stored = caller.put(key, value, now);
    let sight = caller.give_back();
    Ok((stored?, sight))
}

/// The second request: looks the key up behind all that the sight shows, and returns what its own
/// caller has seen then.
///
/// Behind each put of the key that the sight shows, the look hits only the value that was put, or
/// one that came later. A load that was opened before the put doesn't count.
pub fn next_request<K: CacheKey, V: Value<K>, L: Loader<K, V> + Drop, B: Books, R: Wait>(
    rt: &R,
    callers: &Callers<K, V, L, B>,
    sight: &Sight<K, V, B>,
    key: K,
    now: u64,
) -> Result<(Done<Reply<V>>, Sight<K, V, B>), Fault>
    ensures { IfOk result (λ r. ReadsPuts (members_of K.CacheKey V.Value) callers.now.layout key
        sight.now now r.1 r.0.reply) }
{
    // For the prover: shows what a look behind a put hits.
    own_put_is_read::<K, V>();
    let mut caller = callers.lend(rt)?;
    caller.learn(sight);
    let found = caller.get_if_present(key, now);
    let seen = caller.give_back();
    Ok((found?, seen))
}
