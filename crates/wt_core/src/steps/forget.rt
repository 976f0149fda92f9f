// The step after which a load is no longer joined.
ghost use Rattle.std.specs.Prelude.{◌≡◌, ◌≤◌, OnErr};
ghost use Rattle.wt_core.specs.declared.calls.Call.TheVariants.{Forget};
ghost use Rattle.wt_core.specs.declared.calls.Reply.TheVariants.{Forgot};

use crate::refusals::unspent;
use crate::sequential::Core;
use wt_keys::{CacheKey, Fault, Share};
use wt_regions::{Notices, Weighs};

impl<K: CacheKey, V: Share + Weighs> Core<K, V> {
    ghost use Rattle.wt_core.specs.Contract.{Steps, RepliesBy, Tells, RefusesOnly, KeepsWhole};

    /// Lets no further caller join the key's current load, keeps its value out, and returns whether
    /// there was one. The load stays open until it lands (`Forget` of Go's singleflight).
    ///
    /// The key's own expired entry leaves; another stays. `now` is in milliseconds. `StepsSpent` is
    /// the only refusal. Takes no memory. Expected O(1), unless an attacker chooses the keys (see
    /// `Seeded`).
    ///
    /// In use: `uses::plain::forget`.
    pub fn forget(&mut self, key: K, now: u64, notices: &mut Notices<K, V>) -> Result<bool, Fault>
        requires room { self.old.regions.caps.entries ≤ notices.old.room }

        ensures state { Steps K.eq K.word V.measure (Forget key now) self.old self.new result }
        ensures answer { RepliesBy K.eq K.word V.measure Forgot (Forget key now) self.old result }
        ensures notices { Tells K.eq K.word V.measure (Forget key now) self.old
            notices.old notices.new result }

        ensures refusal { RefusesOnly K.eq K.word V.measure (Forget key now) self.old result }
        ensures same { self.new.regions.caps ≡ self.old.regions.caps }
        ensures whole { KeepsWhole notices.old notices.new }
        ensures err { OnErr result ((self.new ≡ self.old) × (notices.new ≡ notices.old)) }
    {
        unspent(self.step)?;
        let was = self.flights.forget(key);
        self.expire_step(key, now, notices);
        Ok(was)
    }
}
