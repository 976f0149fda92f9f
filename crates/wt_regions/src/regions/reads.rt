// Calls that only read the regions.
ghost use Rattle.std.specs.Prelude.{◌≡◌, [], length, false, IfOk, IsOk, IsTrue};
ghost use Rattle.std.specs.Map.{keys_of};
ghost use Rattle.wt_regions.specs.Lawful.{IsLawful};
ghost use Rattle.wt_regions.specs.Lists.{all_entries, due_at, found_at, freshness_at, has_at, region_of, weight_of};
ghost use Rattle.wt_regions.specs.Peeks.{value_of};

use super::Regions;
use crate::caches::Region;
use crate::caps::Freshness;
use crate::weighs::Weighs;
use std::alloc::Global;
use wt_keys::{CacheKey, NoMemory, Share};

impl<K: CacheKey, V: Share + Weighs> Regions<K, V> {
    /// Returns whether an unexpired entry of the key is there. It isn't used by that.
    ///
    /// `now` is in milliseconds. Takes no memory. Expected O(1), unless an attacker chooses the
    /// keys (see `Seeded`).
    pub fn has(&self, key: K, now: u64) -> bool
        ensures { result ≡ has_at K.eq key now self.now }
    {
        let caps = self.caches.caps;
        match self.caches.find(key) {
            Some(held) => !caps.is_expired(now, held),
            None => false,
        }
    }

    /// Returns whether an unexpired entry of the key is there, as `has` does, and whether it is due,
    /// as `due` does, by one search.
    ///
    /// `now` is in milliseconds. Takes no memory. Expected O(1), unless an attacker chooses the
    /// keys (see `Seeded`).
    pub fn freshness(&self, key: K, now: u64) -> Freshness
        ensures { result ≡ freshness_at K.eq key now self.now }
    {
        let caps = self.caches.caps;
        match self.caches.find(key) {
            Some(held) => caps.freshness(now, held),
            None => Freshness::Absent,
        }
    }

    /// Returns a share of the value of the key's unexpired entry, if there is one. The entry isn't
    /// used by that.
    ///
    /// `now` is in milliseconds. Takes memory for that share alone, and none if a share is a copy.
    /// Expected O(1), unless an attacker chooses the keys (see `Seeded`).
    pub fn peek(&self, key: K, now: u64) -> Result<Option<V>, NoMemory>
        ensures found { IfOk result (λ value. value ≡ value_of (found_at K.eq key now self.now)) }
        ensures miss_succeeds { has_at K.eq key now self.now ≡ false → IsOk result }
        ensures copied_succeeds { IsTrue V.Share.is_copied → IsOk result }
    {
        let caps = self.caches.caps;
        let Some(held) = self.caches.find(key) else {
            return Ok(None);
        };
        if caps.is_expired(now, held) {
            return Ok(None);
        }
        Ok(Some(held.value.share()?))
    }

    /// Returns whether an unexpired entry of the key is there that is due for a further load.
    ///
    /// An entry is due once it was written at least `refresh` milliseconds ago; the rule is Guava's
    /// refresh after write. `now` is in milliseconds. Takes no memory. Expected O(1), unless an
    /// attacker chooses the keys (see `Seeded`).
    pub fn due(&self, key: K, now: u64) -> bool
        ensures { result ≡ due_at K.eq key now self.now }
    {
        let caps = self.caches.caps;
        if caps.refresh.is_none() {
            return false;
        }
        match self.caches.find(key) {
            Some(held) => caps.is_due(now, held),
            None => false,
        }
    }

    /// Returns how many entries there are, the expired ones among them. Takes no memory. O(1).
    pub fn len(&self) -> usize
        ensures len { result ≡ length (all_entries self.now) }
        // What holds of the regions at all times.
        ensures lawful { IsLawful K.eq V.measure self.now }
    {
        self.caches.len()
    }

    /// Returns how many entries there may be, as `Caps` had it. Takes no memory. O(1).
    pub fn entries(&self) -> u32
        ensures { result ≡ self.now.caps.entries }
    {
        self.caches.caps.entries
    }

    /// Returns how many entries window may hold now. Takes no memory. O(1).
    pub fn window(&self) -> u32
        ensures { result ≡ self.now.caps.window }
    {
        self.caches.caps.window
    }

    /// Returns the weight of all entries together, the expired ones included: at most the bound.
    ///
    /// Takes no memory. O(1).
    pub fn weight(&self) -> u64
        ensures { result ≡ weight_of self.now }
    {
        self.weight
    }

    /// Returns the keys of a region in a new list, the most recent first.
    ///
    /// Takes memory for that list alone, and none if the region is empty. O(entries of the region).
    pub fn order(&self, alloc: Global, region: Region) -> Result<Vec<K>, NoMemory>
        ensures items { IfOk result (λ keys. keys.items ≡ keys_of (region_of region self.now)) }
        ensures none_succeeds { region_of region self.now ≡ [] → IsOk result }
    {
        self.caches.order(alloc, region)
    }
}
