// The caches of the three regions with their limits, which the movers change as one.
ghost use Rattle.std.specs.Prelude.{◌≡◌, [], length, IfOk, IsOk, option_copied};
ghost use Rattle.std.specs.List.{IsDistinct};
ghost use Rattle.std.specs.Map.{keys_of};
ghost use Rattle.wt_regions.specs.Lawful.{IsFit};
ghost use Rattle.wt_regions.specs.Lists.{all_entries, held_for, no_entries, region_of};

use crate::caps::Caps;
use crate::held::Held;
use crate::lru_cache::{empty_cache, held_in, keys_in};
use lru::LruCache;
use std::alloc::Global;
use std::marker::Model;
use wt_keys::{CacheKey, NoMemory};

/// One of the three regions.
#[derive(Clone, Copy, Debug, PartialEq, Eq)]
pub enum Region {
    /// Where a new entry comes to, under LRU and without admission.
    Window,
    /// The first segment of main: entries not used since they came, and those that protected gave
    /// back.
    Probation,
    /// The second segment of main: entries that were used there.
    Protected,
}

// Three regions, each an `LruCache` with the most recent entry first. Contracts see three lists and
// the limits.
#[derive(Drop)]
pub(crate) struct Caches<K: CacheKey, V> {
    // The limits, which never change.
    pub(crate) caps: Caps,
    pub(crate) window: LruCache<K, Held<V>>,
    pub(crate) probation: LruCache<K, Held<V>>,
    pub(crate) protected: LruCache<K, Held<V>>,
}

impl<K: CacheKey, V> Model for Caches<K, V> {
    ghost use Rattle.std.specs.Prelude.{◌≡◌, ◌+◌};
    ghost use Rattle.wt_regions.specs.Lawful.{IsFit};
    ghost use Rattle.wt_regions.specs.Lists.{Lists, main_cap, protected_cap};
    ghost use Rattle.wt_regions.specs.Moves.{in_caches, places_of};

    ghost Value = { Lists K V };

    ghost view = { λ c. in_caches c.caps c.window c.probation c.protected };

    ghost invariant = { λ c. IsFit c.caps
        × (c.window.cap ≡ places_of c.caps.window)
        × (c.probation.cap ≡ places_of (main_cap c.caps + 1))
        × (c.protected.cap ≡ places_of (protected_cap c.caps)) };
}

impl<K: CacheKey, V: Drop> Caches<K, V> {
    // Three empty caches. Probation has one place more than it may hold.
    pub(crate) fn new(alloc: Global, caps: &Caps) -> Result<Self, NoMemory>
        requires { IsFit caps.now }
        ensures { IfOk result (λ caches. caches ≡ no_entries caps.now) }
    {
        let window = empty_cache(alloc, caps.window as usize)?;
        let probation = empty_cache(alloc, caps.main_cap() + 1)?;
        let protected = empty_cache(alloc, caps.protected_cap())?;
        Ok(Caches {
            caps: *caps,
            window,
            probation,
            protected,
        })
    }

    // The key's entry. Protected is looked into first, since most entries are in it.
    pub(crate) fn find(&self, key: K) -> Option<&Held<V>>
        requires { IsDistinct K.eq (keys_of (all_entries self.now)) }
        ensures { option_copied result ≡ held_for K.eq key self.now }
    {
        if let Some(held) = held_in(&self.protected, key) {
            return Some(held);
        }
        if let Some(held) = held_in(&self.probation, key) {
            return Some(held);
        }
        self.window.peek(&key)
    }

    // How many entries there are.
    pub(crate) fn len(&self) -> usize
        ensures { result ≡ length (all_entries self.now) }
    {
        self.window.len() + (self.probation.len() + self.protected.len())
    }

    // The keys of a region, the most recent first.
    pub(crate) fn order(&self, alloc: Global, region: Region) -> Result<Vec<K>, NoMemory>
        ensures items { IfOk result (λ keys. keys.items ≡ keys_of (region_of region self.now)) }
        ensures none_succeeds { region_of region self.now ≡ [] → IsOk result }
    {
        match region {
            Region::Window => keys_in(alloc, &self.window),
            Region::Probation => keys_in(alloc, &self.probation),
            Region::Protected => keys_in(alloc, &self.protected),
        }
    }
}
