// Entries that leave without a new one: one key's, the expired ones, all. None of it takes memory.
ghost use Rattle.std.specs.Prelude.{◌≡◌, ◌+◌, ◌≤◌, [], length};
ghost use Rattle.lru.specs.LruCache.{lru_cache};
ghost use Rattle.wt_regions.specs.Lists.{without, held_for, weight_of, weights};
ghost use Rattle.wt_regions.specs.Moves.{IsPlaced};
ghost use Rattle.wt_regions.specs.Notices.{appended};
ghost use Rattle.wt_regions.specs.Steps.{cleaned, cleared, expired_of, live_of, told_back};

use crate::caches::Caches;
use crate::caps::Caps;
use crate::held::Held;
use crate::notices::{Cause, Notices, tell_left};
use crate::weighs::Weighs;
use lru::LruCache;
use wt_keys::{CacheKey, Share};

// Removes every expired entry of the region, from last to first, and returns the remaining weight.
// It looks at the last entry once for each entry of the region. One that stays moves to the front,
// so that all are in their old order again at the end.
fn clean_in<K: CacheKey, V: Drop>(
    caps: &Caps,
    cache: &mut LruCache<K, Held<V>>,
    now: u64,
    weight: u64,
    notices: &mut Notices<K, V>,
) -> u64
    requires room { length cache.old.entries ≤ notices.old.room }
    requires weight { weights cache.old.entries ≤ weight }
    ensures state { cache.new ≡ lru_cache (live_of now caps.now cache.old.entries) cache.old.cap }
    ensures notices { notices.new
        ≡ appended (expired_of now caps.now cache.old.entries) notices.old }
    ensures weight { result + weights cache.old.entries ≡ weight + weights cache.new.entries }
    ensures lighter { result ≤ weight }
{
    let mut weight = weight;
    let mut left = cache.len();
    while left > 0 {
        left -= 1;
        let Some((key, held)) = cache.peek_lru() else {
            return weight;
        };
        if caps.is_expired(now, held) {
            weight -= tell_left(notices, cache.pop_lru(), Cause::Expired);
        } else {
            let key = *key;
            cache.promote(&key);
        }
    }
    weight
}

// Every entry of the region leaves, from last to first.
fn clear_in<K: CacheKey, V: Drop>(
    caps: &Caps,
    cache: &mut LruCache<K, Held<V>>,
    now: u64,
    notices: &mut Notices<K, V>,
)
    requires room { length cache.old.entries ≤ notices.old.room }
    ensures state { cache.new ≡ lru_cache [] cache.old.cap }
    ensures notices { notices.new
        ≡ appended (told_back now caps.now cache.old.entries) notices.old }
{
    while let Some((_, held)) = cache.peek_lru() {
        let cause = caps.cause_of(now, held, Cause::Explicit);
        tell_left(notices, cache.pop_lru(), cause);
    }
}

impl<K: CacheKey, V: Share + Weighs> Caches<K, V> {
    // Takes the key's entry out of its region.
    pub(crate) fn take_out(&mut self, key: K) -> Option<Held<V>>
        ensures held { result ≡ held_for K.eq key self.old }
        ensures state { self.new ≡ without K.eq key self.old }
    {
        let first = self.window.pop(&key);
        let second = self.take_below(key);
        match first {
            Some(held) => Some(held),
            None => second,
        }
    }

    // Removes every expired entry, and returns the remaining weight.
    pub(crate) fn clean(&mut self, now: u64, weight: u64, notices: &mut Notices<K, V>) -> u64
        requires placed { IsPlaced K.eq V.measure self.old }
        requires weight { weight ≡ weight_of self.old }
        requires room { self.old.caps.entries ≤ notices.old.room }
        ensures state { self.new ≡ (cleaned now self.old).0 }
        ensures notices { notices.new ≡ appended (cleaned now self.old).1 notices.old }
        ensures weight { result ≡ weight_of self.new }
        ensures lighter { result ≤ weight }
    {
        let weight = clean_in(&self.caps, &mut self.window, now, weight, notices);
        let weight = clean_in(&self.caps, &mut self.probation, now, weight, notices);
        clean_in(&self.caps, &mut self.protected, now, weight, notices)
    }

    // Removes every entry.
    pub(crate) fn clear(&mut self, now: u64, notices: &mut Notices<K, V>)
        requires placed { IsPlaced K.eq V.measure self.old }
        requires room { self.old.caps.entries ≤ notices.old.room }
        ensures state { self.new ≡ (cleared now self.old).0 }
        ensures notices { notices.new ≡ appended (cleared now self.old).1 notices.old }
    {
        clear_in(&self.caps, &mut self.window, now, notices);
        clear_in(&self.caps, &mut self.probation, now, notices);
        clear_in(&self.caps, &mut self.protected, now, notices);
    }
}
