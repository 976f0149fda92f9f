// The step that takes the expired entries out.
ghost use Rattle.std.specs.Prelude.{◌≡◌, ◌≤◌, OnErr};
ghost use Rattle.wt_core.specs.declared.calls.Call.TheVariants.{Clean};

use crate::counting::evicted_since;
use crate::refusals::unspent;
use crate::sequential::Core;
use wt_keys::{CacheKey, Fault, Share};
use wt_regions::{Notices, Weighs};

impl<K: CacheKey, V: Share + Weighs> Core<K, V> {
    ghost use Rattle.wt_core.specs.Contract.{Steps, Tells, RefusesOnly, KeepsWhole};

    /// Takes every expired entry out, as `Expired`: window, probation, protected, each from last to
    /// first.
    ///
    /// `now` is in milliseconds. `StepsSpent` is the only refusal. Takes no memory. O(entries).
    ///
    /// In use: `uses::plain::clean`.
    pub fn clean(&mut self, now: u64, notices: &mut Notices<K, V>) -> Result<(), Fault>
        requires room { self.old.regions.caps.entries ≤ notices.old.room }

        ensures state { Steps K.eq K.word V.measure (Clean now) self.old self.new result }
        ensures notices { Tells K.eq K.word V.measure (Clean now) self.old
            notices.old notices.new result }

        ensures refusal { RefusesOnly K.eq K.word V.measure (Clean now) self.old result }
        ensures same { self.new.regions.caps ≡ self.old.regions.caps }
        ensures whole { KeepsWhole notices.old notices.new }
        ensures err { OnErr result ((self.new ≡ self.old) × (notices.new ≡ notices.old)) }
    {
        unspent(self.step)?;
        // For the prover: shows `lawful`, which bounds the notices.
        let _len = self.regions.len();
        let now = self.latest.max(now);
        let from = notices.list().len();
        self.regions.clean(now, notices);
        self.counts.evicted += evicted_since(notices, from);
        self.latest = now;
        self.step += 1;
        Ok(())
    }
}
