// The step of a look-up.
ghost use Rattle.std.specs.Prelude.{◌≡◌, ◌≤◌, OnErr};
ghost use Rattle.wt_core.specs.declared.calls.Call.TheVariants.{Look};

use crate::calls::Reply;
use crate::refusals::unspent;
use crate::sequential::Core;
use crate::steps::{end_hit, end_miss};
use wt_keys::{CacheKey, Fault, Share};
use wt_regions::{Found, Notices, Weighs};

impl<K: CacheKey, V: Share + Weighs> Core<K, V> {
    ghost use Rattle.wt_core.specs.Contract.{Steps, Replies, Tells, Refuses, KeepsWhole, SucceedsAbsent, SucceedsBare};

    /// Looks the key up at the moment `now`, in milliseconds, and returns `Hit` with a share of its
    /// value, or `Absent`. A hit is a use: the entry moves as in segmented LRU.
    ///
    /// The key's own expired entry leaves first. The key is counted last. `StepsSpent` comes before
    /// memory is asked for. Only a hit takes memory: shares, and from probation a place or two. So a
    /// hit takes none if a share is a copy and the entry isn't in probation. Expected amortised
    /// O(1), unless an attacker chooses the keys (see `Seeded`).
    ///
    /// In use: `uses::plain::look`.
    pub fn look(&mut self, key: K, now: u64, notices: &mut Notices<K, V>) -> Result<Reply<V>, Fault>
        requires room { self.old.regions.caps.entries ≤ notices.old.room }

        ensures state { Steps K.eq K.word V.measure (Look key now) self.old self.new result }
        ensures answer { Replies K.eq K.word V.measure (Look key now) self.old result }
        ensures notices { Tells K.eq K.word V.measure (Look key now) self.old
            notices.old notices.new result }

        ensures refusal { Refuses K.eq K.word V.measure (Look key now) self.old result }
        ensures same { self.new.regions.caps ≡ self.old.regions.caps }
        ensures whole { KeepsWhole notices.old notices.new }
        ensures miss_succeeds { SucceedsAbsent K.eq key now self.old result }
        // Nor does a hit take memory if it moves no entry of probation and a share is a copy.
        ensures none_succeeds { SucceedsBare K.eq K.word V.measure V.Share.is_copied
            (Look key now) self.old result }
        ensures err { OnErr result ((self.new ≡ self.old) × (notices.new ≡ notices.old)) }
    {
        unspent(self.step)?;
        // For the prover: shows `lawful`, which bounds the notices.
        let _len = self.regions.len();
        let now = self.latest.max(now);
        match self.regions.get(key, now)? {
            Found::Hit(value) => {
                end_hit!(self, key, now);
                Ok(Reply::Hit(value))
            }
            missed => {
                end_miss!(self, key, now, missed, notices);
                Ok(Reply::Absent)
            }
        }
    }
}
