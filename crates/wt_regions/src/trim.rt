// The weight comes down to the bound: the last of the first of probation, protected and window that
// holds another entry than the one just stored leaves, again and again.
ghost use Rattle.std.specs.Prelude.{◌≡◌, ◌<◌, ◌≤◌};
ghost use Rattle.std.specs.Option.{option_map_or};
ghost use Rattle.lru.specs.LruCache.{lru_cache, last_entry};
ghost use Rattle.wt_regions.specs.declared.notices.Cause.TheVariants.{Size};
ghost use Rattle.wt_regions.specs.Lists.{all_entries, all_but_last, weight_of};
ghost use Rattle.wt_regions.specs.Moves.{IsFirst, IsStep, others};
ghost use Rattle.wt_regions.specs.Notices.{appended};
ghost use Rattle.wt_regions.specs.Settle.{holds_other, last_told, trimmed, trimmed_once};

use crate::caches::Caches;
use crate::held::Held;
use crate::notices::{Cause, Notices, tell_left};
use lru::LruCache;
use wt_keys::CacheKey;

// Whether an entry of another key is there.
fn holds_other<K: CacheKey, V>(cache: &LruCache<K, Held<V>>, key: K) -> bool
    ensures { result ≡ holds_other K.eq key cache.now.entries }
{
    let own = if cache.contains(&key) { 1 } else { 0 };
    cache.len() > own
}

// Takes the last entry out, and returns its weight.
fn take_last<K: CacheKey, V: Drop>(
    cache: &mut LruCache<K, Held<V>>,
    notices: &mut Notices<K, V>,
) -> u64
    requires { 0 < notices.old.room }
    ensures state { cache.new ≡ lru_cache (all_but_last cache.old.entries) cache.old.cap }
    ensures weight { result ≡ option_map_or (λ e. e.1.weight) (last_entry cache.old.entries) 0 }
    ensures notices { notices.new ≡ appended (last_told Size cache.old.entries) notices.old }
{
    tell_left(notices, cache.pop_lru(), Cause::Size)
}

impl<K: CacheKey, V: Drop> Caches<K, V> {
    // One entry leaves, if one can. Answers the weight that left.
    fn trim_once(&mut self, key: K, notices: &mut Notices<K, V>) -> Option<u64>
        requires first { IsFirst K.eq key self.old }
        requires room { others K.eq key (all_entries self.old) ≤ notices.old.room }
        ensures { IsStep (trimmed_once K.eq key self.old) self.old notices.old
            result self.new notices.new }
    {
        if holds_other(&self.probation, key) {
            return Some(take_last(&mut self.probation, notices));
        }
        if holds_other(&self.protected, key) {
            return Some(take_last(&mut self.protected, notices));
        }
        if holds_other(&self.window, key) {
            return Some(take_last(&mut self.window, notices));
        }
        None
    }

    // Entries leave while the weight is above the bound. The key was just stored. Answers the
    // weight left.
    pub(crate) fn trim(&mut self, key: K, weight: u64, notices: &mut Notices<K, V>) -> u64
        requires weight { weight ≡ weight_of self.old }
        requires first { IsFirst K.eq key self.old }
        requires room { others K.eq key (all_entries self.old) ≤ notices.old.room }
        ensures state { self.new ≡ (trimmed K.eq key self.old).0 }
        ensures notices { notices.new ≡ appended (trimmed K.eq key self.old).1 notices.old }
        ensures weight { result ≡ weight_of self.new }
    {
        let mut weight = weight;
        while weight > self.caps.bound {
            match self.trim_once(key, notices) {
                Some(left) => weight -= left,
                None => return weight,
            }
        }
        weight
    }
}
