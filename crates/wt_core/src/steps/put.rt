// The step of a store.
ghost use Rattle.std.specs.Prelude.{◌≡◌, ◌≤◌, OnErr};
ghost use Rattle.wt_core.specs.declared.calls.Call.TheVariants.{Put};

use crate::counting::{count_key, evicted_since};
use crate::refusals::{check_weight, unspent};
use crate::sequential::Core;
use wt_keys::{CacheKey, Fault, Share};
use wt_regions::{Notices, Weighs};

impl<K: CacheKey, V: Share + Weighs> Core<K, V> {
    ghost use Rattle.wt_core.specs.Contract.{Steps, Tells, Refuses, KeepsWhole};

    /// Stores the value under the key, in place of one that is there. The key's current load is no
    /// longer joined, and its value not stored.
    ///
    /// `now` is in milliseconds. The old value leaves as `Replaced`, or as `Expired` if it is. An
    /// entry that finds no place leaves as `Size`, and so do entries while the weights are above
    /// the bound. The key is counted last. `TooHeavy` comes before `StepsSpent`, and both before
    /// memory is asked for; the refused value is dropped. Expected amortised O(1), unless an
    /// attacker chooses the keys (see `Seeded`); O(entries) if many leave.
    ///
    /// In use: `uses::plain::put`.
    pub fn put(
        &mut self,
        key: K,
        value: V,
        now: u64,
        notices: &mut Notices<K, V>,
    ) -> Result<(), Fault>
        requires room { self.old.regions.caps.entries ≤ notices.old.room }

        ensures state { Steps K.eq K.word V.measure (Put key value now) self.old self.new result }
        ensures notices { Tells K.eq K.word V.measure (Put key value now) self.old
            notices.old notices.new result }

        ensures refusal { Refuses K.eq K.word V.measure (Put key value now) self.old result }
        ensures same { self.new.regions.caps ≡ self.old.regions.caps }
        ensures whole { KeepsWhole notices.old notices.new }
        ensures err { OnErr result ((self.new ≡ self.old) × (notices.new ≡ notices.old)) }
    {
        check_weight(value.measure().weight, self.bound)?;
        unspent(self.step)?;
        // For the prover: shows `lawful`, which bounds the notices.
        let _len = self.regions.len();
        let now = self.latest.max(now);
        let stamp = self.step + 1;
        let from = notices.list().len();
        self.regions
            .store(key, value, now, stamp, &self.sketch, notices)?;
        self.flights.forget(key);
        self.counts.evicted += evicted_since(notices, from);
        self.latest = now;
        self.step = stamp;
        count_key(&mut self.sketch, key);
        Ok(())
    }
}
