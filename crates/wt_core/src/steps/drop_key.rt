// The step of a removal.
ghost use Rattle.std.specs.Prelude.{◌≡◌, ◌≤◌, OnErr};
ghost use Rattle.wt_core.specs.declared.calls.Call.TheVariants.{DropKey};
ghost use Rattle.wt_core.specs.declared.calls.Reply.TheVariants.{Dropped};

use crate::counting::evicted_since;
use crate::refusals::unspent;
use crate::sequential::Core;
use wt_keys::{CacheKey, Fault, Share};
use wt_regions::{Notices, Weighs};

impl<K: CacheKey, V: Share + Weighs> Core<K, V> {
    ghost use Rattle.wt_core.specs.Contract.{Steps, RepliesBy, Tells, RefusesOnly, KeepsWhole};

    /// Takes the key's entry out, and returns whether an unexpired one left. From then on no caller
    /// joins the key's current load, and its value isn't stored.
    ///
    /// The entry leaves as `Explicit`, an expired one as `Expired`. `now` is in milliseconds.
    /// `StepsSpent` is the only refusal. Takes no memory. Expected O(1), unless an attacker chooses
    /// the keys (see `Seeded`).
    ///
    /// In use: `uses::plain::drop_key`.
    pub fn drop_key(&mut self, key: K, now: u64, notices: &mut Notices<K, V>) -> Result<bool, Fault>
        requires room { self.old.regions.caps.entries ≤ notices.old.room }

        ensures state { Steps K.eq K.word V.measure (DropKey key now) self.old self.new result }
        ensures answer { RepliesBy K.eq K.word V.measure Dropped (DropKey key now) self.old result }
        ensures notices { Tells K.eq K.word V.measure (DropKey key now) self.old
            notices.old notices.new result }

        ensures refusal { RefusesOnly K.eq K.word V.measure (DropKey key now) self.old result }
        ensures same { self.new.regions.caps ≡ self.old.regions.caps }
        ensures whole { KeepsWhole notices.old notices.new }
        ensures err { OnErr result ((self.new ≡ self.old) × (notices.new ≡ notices.old)) }
    {
        unspent(self.step)?;
        // For the prover: shows `lawful`, which bounds the notices.
        let _len = self.regions.len();
        let now = self.latest.max(now);
        let from = notices.list().len();
        let left = self.regions.remove(key, now, notices);
        self.flights.forget(key);
        self.counts.evicted += evicted_since(notices, from);
        self.latest = now;
        self.step += 1;
        Ok(left)
    }
}
