// The cache for one thread: its state, and the calls that only read it.
//
//     key ──► regions    the entries: window, probation, protected
//         ──► sketch     how often each key was counted, for the duel
//         ──► flights    the loads that are open
//
// Each of the nine steps (`steps/`) is a function of the whole state.
ghost use Rattle.std.specs.Prelude.{◌≡◌, ◌==◌, [], false, max, IfErr, IfOk, IsOk, IsTrue, length};
ghost use Rattle.std.specs.Map.{keys_of};
ghost use Rattle.std.specs.Option.{option_map};
ghost use Rattle.wt_regions.specs.Lawful.{FailsByField};
ghost use Rattle.wt_keys.specs.declared.fault.Fault.TheVariants as fault;
ghost use Rattle.wt_regions.specs.Lists.{all_entries, has_at, region_of, weight_of};
ghost use Rattle.wt_core.specs.Contract.{RepliesBy};
ghost use Rattle.wt_core.specs.Peeks.{look_reply};
ghost use Rattle.wt_core.specs.declared.calls.Call.TheVariants.{Look};
ghost use Rattle.wt_flights.specs.Rows.{row, row_of, oldest_load};

use crate::config::Config;
use crate::stats::{Counts, Stats};
use crate::steps::land::row_of;
use std::alloc::Global;
use std::marker::Model;
use wt_flights::{FlightTable, Row};
use wt_keys::{CacheKey, Fault, NoMemory, Share};
use wt_regions::{Region, Regions, Weighs};
use wt_sketch::Sketch;

/// The sequential cache: keys with their values in three regions, and the loads that are open.
///
/// Each call that changes it is one step, or is refused and changes nothing, the moment included.
/// The caller passes each moment, in milliseconds; one before the latest counts as the latest.
#[derive(Drop)]
pub struct Core<K: CacheKey, V: Share + Weighs> {
    // The fields that a hit writes come first, so that they share few cache lines.
    //
    // The moment of the last step, in milliseconds; 0 before the first. It never goes back.
    pub(crate) latest: u64,
    // How many steps were made: one for each call that wasn't refused.
    pub(crate) step: u64,
    // Looks and seeks count as look-ups, landings as loads. Every step counts its evictions.
    pub(crate) counts: Counts,
    // How often each key was counted. A look, a seek and a put count theirs, last in the step.
    pub(crate) sketch: Sketch,
    // The open loads. A seek opens or joins one, a landing closes it. After a put, a drop, a forget
    // or a clear no further caller joins it.
    pub(crate) flights: FlightTable<K>,
    // The entries. Each step may let some leave; a hit moves one, a put and a landing store one.
    pub(crate) regions: Regions<K, V>,
    // How much the entries may weigh together, as the regions have it; never changes.
    pub(crate) bound: u64,
    // How many loads may be open, as the flights have it; never changes.
    pub(crate) limit: u32,
}

impl<K: CacheKey, V: Share + Weighs> Model for Core<K, V> {
    ghost use Rattle.std.specs.Prelude.{◌≡◌};
    ghost use Rattle.wt_core.specs.State.{State};
    ghost use Rattle.wt_core.specs.Lawful.{IsCounted};

    ghost Value = { State K V };

    ghost view = { λ c. record {
      regions = c.regions;
      sketch = c.sketch;
      flights = c.flights;
      counts = c.counts;
      latest = c.latest;
      step = c.step;
    } };

    ghost invariant = { λ c. IsCounted (record {
      regions = c.regions;
      sketch = c.sketch;
      flights = c.flights;
      counts = c.counts;
      latest = c.latest;
      step = c.step;
    }) × (c.bound ≡ c.regions.caps.bound) × (c.limit ≡ c.flights.limit) };
}

impl<K: CacheKey, V: Share + Weighs> Core<K, V> {
    ghost use Rattle.wt_core.specs.State.{opening, stats_of, config_fault};
    ghost use Rattle.wt_core.specs.Lawful.{IsLawful, AreSmall};

    /// Makes an empty cache.
    ///
    /// `BadConfig` as [`Config::check`] returns it, before memory is asked for. Takes memory for
    /// the tables of the three regions and the sketch. O(entries).
    ///
    /// In use: `uses::plain::new`.
    pub fn new(alloc: Global, config: &Config) -> Result<Core<K, V>, Fault>
        ensures ok { IfOk result (λ core. core ≡ opening config.now) }
        // The refusals of a configuration don't depend on memory.
        ensures refusal { FailsByField (config_fault config.now) result }
    {
        if let Some(field) = config.fault() {
            return Err(Fault::BadConfig { field });
        }
        // The fields are within their ranges, so that the parts can refuse for memory alone.
        let Ok(regions) = Regions::new(alloc, &config.caps()) else {
            return Err(Fault::NoMemory);
        };
        let Ok(sketch) = Sketch::new(alloc, config.entries) else {
            return Err(Fault::NoMemory);
        };
        let Ok(flights) = FlightTable::new(alloc, config.flights) else {
            return Err(Fault::NoMemory);
        };
        Ok(Core {
            regions,
            sketch,
            flights,
            counts: Counts::NOTHING,
            latest: 0,
            step: 0,
            bound: config.bound,
            limit: config.flights,
        })
    }

    /// Returns the numbers of the cache. Takes no memory. O(1).
    ///
    /// In use: `uses::plain::stats`.
    pub fn stats(&self) -> Stats
        ensures numbers { result ≡ stats_of self.now }
        // What holds of the cache at all times.
        ensures lawful { IsLawful K.eq V.measure self.now }
        ensures small { AreSmall result }
    {
        // For the prover: shows `lawful` of the two parts.
        let _additions = self.sketch.additions();
        let _open = self.flights.len();
        Stats {
            lookups: self.counts.lookups,
            hits: self.counts.hits,
            misses: self.counts.misses,
            loads: self.counts.loads,
            failed: self.counts.failed,
            evicted: self.counts.evicted,
            entries: self.regions.len() as u64,
            weight: self.regions.weight(),
        }
    }

    /// Returns how many steps were made. Takes no memory. O(1).
    pub fn step(&self) -> u64
        ensures { result ≡ self.now.step }
    {
        self.step
    }

    /// Returns the latest moment, in milliseconds; 0 before the first step. Takes no memory. O(1).
    pub fn latest(&self) -> u64
        ensures { result ≡ self.now.latest }
    {
        self.latest
    }

    /// Returns a share of the value that a look of the key would hit at `now`, if it would hit. Is
    /// no step, and uses no entry.
    ///
    /// `now` is in milliseconds. Takes memory for that share alone, and none if a share is a copy.
    /// Expected O(1), unless an attacker chooses the keys (see `Seeded`).
    pub fn peek(&self, key: K, now: u64) -> Result<Option<V>, Fault>
        ensures answer { RepliesBy K.eq K.word V.measure look_reply (Look key now) self.now result }
        ensures memory { IfErr result (λ f. f ≡ fault.NoMemory) }
        ensures miss_succeeds { has_at K.eq key (max self.now.latest now) self.now.regions ≡ false
            → IsOk result }
        ensures copied_succeeds { IsTrue V.Share.is_copied → IsOk result }
    {
        let now = self.latest.max(now);
        match self.regions.peek(key, now) {
            Ok(found) => Ok(found),
            Err(NoMemory) => Err(Fault::NoMemory),
        }
    }

    /// Returns how many entries are held, the expired ones among them. Takes no memory. O(1).
    pub fn len(&self) -> usize
        ensures { result ≡ length (all_entries self.now.regions) }
    {
        self.regions.len()
    }

    /// Returns how many entries may be held, which is the room for notices that a step asks for.
    ///
    /// Takes no memory. O(1).
    pub fn entries(&self) -> u32
        ensures { result ≡ self.now.regions.caps.entries }
    {
        self.regions.entries()
    }

    /// Returns how many entries window may hold now: as many as the configuration has, unless slides
    /// moved its border. Takes no memory. O(1).
    ///
    /// In use: `uses::plain::slide`.
    pub fn window(&self) -> u32
        ensures { result ≡ self.now.regions.caps.window }
    {
        self.regions.window()
    }

    /// Returns whether no entry is held. Takes no memory. O(1).
    pub fn is_empty(&self) -> bool
        ensures { result ≡ (length (all_entries self.now.regions) == 0) }
    {
        self.len() == 0
    }

    /// Returns the weight of all entries together: at most the bound. Takes no memory. O(1).
    pub fn weight(&self) -> u64
        ensures { result ≡ weight_of self.now.regions }
    {
        self.regions.weight()
    }

    /// Returns how many loads are open. Takes no memory. O(1).
    pub fn open_flights(&self) -> usize
        ensures { result ≡ length self.now.flights.rows }
    {
        self.flights.len()
    }

    /// Returns the open load with an id, if there is one. Takes no memory. Expected O(1): the cache
    /// itself picks the ids.
    pub fn row(&self, id: u64) -> Option<Row<K>>
        ensures { result ≡ row id self.now.flights }
    {
        self.flights.row(id)
    }

    // Returns the open load with an id, if there is one and it is the key's.
    pub(crate) fn row_of(&self, id: u64, key: K) -> Option<Row<K>>
        ensures { result ≡ row_of K.eq key id self.now.flights }
    {
        row_of(&self.flights, id, key)
    }

    /// Returns the id of the key's oldest open load, current or not, if it has one.
    ///
    /// Takes no memory. O(open loads).
    pub fn oldest_load(&self, key: K) -> Option<u64>
        ensures { result ≡ option_map (λ r. r.id) (oldest_load K.eq key self.now.flights) }
    {
        self.flights.oldest_load(key)
    }

    /// Returns the keys of a region in a new list, the most recent first.
    ///
    /// Takes memory for that list alone, and none if the region is empty. O(entries of the region).
    ///
    /// In use: `uses::plain::order`.
    pub fn order(&self, alloc: Global, region: Region) -> Result<Vec<K>, NoMemory>
        ensures items { IfOk result
            (λ keys. keys.items ≡ keys_of (region_of region self.now.regions)) }
        ensures none_succeeds { region_of region self.now.regions ≡ [] → IsOk result }
    {
        self.regions.order(alloc, region)
    }
}
