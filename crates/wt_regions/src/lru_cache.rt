// The steps of the regions on one `LruCache`. Window and protected have as many places as they may
// hold entries: a push into a full one returns its last entry, and keeps that entry's block of
// memory. Probation has one place more, since its last entry may only leave once another has come.
ghost use Rattle.std.specs.Prelude.{◌≡◌, ◌<◌, ◌≤◌, [], length, None, IfOk, OnOk, OnErr, IsOk, IsSome, IsNone, is_some, IsTrue, option_copied};
ghost use Rattle.std.specs.Map.{keys_of, lookup};
ghost use Rattle.std.specs.Option.{option_map};
ghost use Rattle.lru.specs.LruCache.{last_entry, lru_cache};
ghost use Rattle.wt_regions.specs.Lists.{used};
ghost use Rattle.wt_regions.specs.Moves.{fronted, places_of, pushed, pushed_past};

use crate::held::Held;
use lru::LruCache;
use std::alloc::Global;
use std::num::NonZeroUsize;
use wt_keys::{CacheKey, NoMemory, Share};

// An empty cache of `most` places, or of one place if `most` is 0.
pub(crate) fn empty_cache<K: CacheKey, V>(
    alloc: Global,
    most: usize,
) -> Result<LruCache<K, Held<V>>, NoMemory>
    requires { most ≤ 65537 }
    ensures { IfOk result (λ cache. cache ≡ lru_cache [] (places_of most)) }
{
    match NonZeroUsize::new(most.max(1)) {
        Some(cap) => Ok(LruCache::new(alloc, cap)?),
        None => Err(NoMemory),
    }
}

// Gives a cache other places, of which its entries need no more.
pub(crate) fn resize<K: CacheKey, V: Drop>(cache: &mut LruCache<K, Held<V>>, most: usize)
    requires most { most ≤ 65537 }
    requires fits { length cache.old.entries ≤ most }
    ensures { cache.new ≡ lru_cache cache.old.entries (places_of most) }
{
    if let Some(cap) = NonZeroUsize::new(most.max(1)) {
        cache.resize(cap);
    }
}

// Puts an entry of a key that isn't there first, in a free place.
pub(crate) fn push_new<K: CacheKey, V: Drop>(
    cache: &mut LruCache<K, Held<V>>,
    key: K,
    held: Held<V>,
) -> Result<(), NoMemory>
    requires fresh { lookup (K.eq key) cache.old.entries ≡ None }
    requires place { length cache.old.entries < cache.old.cap }
    ensures state { OnOk result (cache.new ≡ pushed (key, held) cache.old) }
    ensures err { OnErr result (cache.new ≡ cache.old) }
{
    match cache.push(key, held) {
        Ok(_) => Ok(()),
        Err(_) => Err(NoMemory),
    }
}

// Puts an entry of a key that isn't there first in a full cache, and returns the last, which leaves.
pub(crate) fn push_past<K: CacheKey, V: Drop>(
    cache: &mut LruCache<K, Held<V>>,
    key: K,
    held: Held<V>,
) -> Result<Option<(K, Held<V>)>, NoMemory>
    requires fresh { lookup (K.eq key) cache.old.entries ≡ None }
    requires some { 0 < cache.old.cap }
    requires full { length cache.old.entries ≡ cache.old.cap }
    ensures left { IfOk result (λ left. left ≡ last_entry cache.old.entries) }
    ensures state { OnOk result (cache.new ≡ pushed_past (key, held) cache.old) }
    ensures err { OnErr result (cache.new ≡ cache.old) }
{
    match cache.push(key, held) {
        Ok(left) => Ok(left),
        Err(_) => Err(NoMemory),
    }
}

// The key's entry. An empty cache isn't searched: main is empty if window may hold all entries.
pub(crate) fn held_in<K: CacheKey, V>(cache: &LruCache<K, Held<V>>, key: K) -> Option<&Held<V>>
    ensures { option_copied result ≡ lookup (K.eq key) cache.now.entries }
{
    if cache.is_empty() {
        return None;
    }
    cache.peek(&key)
}

// Brings the entry of the key to the front, used now, and returns whether there is one.
pub(crate) fn freshen<K: CacheKey, V>(cache: &mut LruCache<K, Held<V>>, key: K, now: u64) -> bool
    ensures answer { result ≡ is_some (lookup (K.eq key) cache.old.entries) }
    ensures state { cache.new ≡ fronted K.eq key (used now) cache.old }
{
    match cache.get_mut(&key) {
        Some(held) => {
            held.accessed = now;
            true
        }
        None => false,
    }
}

// Brings the entry of the key to the front, used now, and returns a copy of its value, if there is
// one. Takes no memory.
pub(crate) fn use_in<K: CacheKey, V: Share>(
    cache: &mut LruCache<K, Held<V>>,
    key: K,
    now: u64,
) -> Option<V>
    requires { IsTrue V.Share.is_copied }
    ensures answer { result ≡ option_map (λ h. h.value) (lookup (K.eq key) cache.old.entries) }
    ensures state { cache.new ≡ fronted K.eq key (used now) cache.old }
    ensures missed { IsNone result → cache.new ≡ cache.old }
{
    if cache.is_empty() {
        return None;
    }
    let Some(held) = cache.get_mut(&key) else {
        return None;
    };
    held.accessed = now;
    match held.value.share() {
        Ok(value) => Some(value),
        Err(_) => unreachable!(),
    }
}

// Brings the entry of the key to the front with other contents, and returns the old ones. Takes no
// memory.
pub(crate) fn replace_in<K: CacheKey, V: Drop>(
    cache: &mut LruCache<K, Held<V>>,
    key: K,
    held: Held<V>,
) -> Option<Held<V>>
    requires { IsSome (lookup (K.eq key) cache.old.entries) }
    ensures old { result ≡ lookup (K.eq key) cache.old.entries }
    ensures state { cache.new ≡ fronted K.eq key (λ _. held) cache.old }
{
    match cache.put(key, held) {
        Ok(old) => old,
        Err(_) => unreachable!(),
    }
}

// The keys of a region, the most recent first. Takes no memory for an empty region.
pub(crate) fn keys_in<K: CacheKey, V>(
    alloc: Global,
    cache: &LruCache<K, Held<V>>,
) -> Result<Vec<K>, NoMemory>
    ensures items { IfOk result (λ keys. keys.items ≡ keys_of cache.now.entries) }
    ensures none_succeeds { cache.now.entries ≡ [] → IsOk result }
{
    if cache.is_empty() {
        return Ok(Vec::new(alloc));
    }
    let mut keys = Vec::with_capacity(alloc, cache.len())?;
    for (key, _) in cache.iter() {
        keys.push(*key)?;
    }
    Ok(keys)
}
