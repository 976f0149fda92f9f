// The way of a new entry into the regions, and the duel:
//
//   new ──► window's front; past window's cap its last is the candidate, which
//           is expired ───────────────────────────────► leaves
//           finds no main ────────────────────────────► leaves
//           finds room in main ───────────────────────► probation's front
//           meets the victim, probation's last, which
//             is expired, or was counted less often ──► leaves; the candidate: probation's front
//             was counted as often, or more often ────► stays; the candidate leaves
//
// A read-only function decides first, and another one moves the entries by its decision.
ghost use Rattle.std.specs.Prelude.{◌≡◌, ◌+◌, ◌<◌, None, IfOk, OnOk, OnErr};
ghost use Rattle.wt_sketch.specs.Sketch.{estimate_of};
ghost use Rattle.wt_regions.specs.Lists.{held_for, weight_of};
ghost use Rattle.wt_regions.specs.Moves.{HasFullWindow, IsPlaced, WeighsUp, estimates, overflowing, passed_on, settling};
ghost use Rattle.wt_regions.specs.Notices.{appended};
ghost use Rattle.wt_regions.specs.Settle.{fate, grown};

use crate::caches::Caches;
use crate::held::Held;
use crate::lru_cache::{push_new, push_past};
use crate::notices::{Cause, Notices, tell_left};
use crate::weighs::Weighs;
use wt_keys::{CacheKey, NoMemory, Share, places};
use wt_sketch::Sketch;

/// The fate of the candidate, the entry that window gives up.
#[derive(Clone, Copy, Debug, PartialEq, Eq)]
pub enum Fate {
    /// It leaves.
    Leaves(Cause),
    /// It enters probation, if there is room.
    Enters,
    /// It enters probation, and the victim, probation's last, leaves.
    Ousts(Cause),
}

// How often the key was counted, by the sketch.
fn estimate_for<K: CacheKey>(sketch: &Sketch, key: &K) -> u8
    ensures { result ≡ estimate_of sketch.now (K.word key.now) }
{
    sketch.estimate(&places(key.word(), sketch.bits()))
}

impl<K: CacheKey, V: Share + Weighs> Caches<K, V> {
    // Decides the fate of the candidate, the entry that window gives up.
    fn fate_of(&self, key: K, held: &Held<V>, sketch: &Sketch, now: u64) -> Fate
        ensures { result ≡ fate (estimates sketch.now K.word) now self.now.caps (key, held.now)
            self.now.probation self.now.protected }
    {
        if self.caps.is_expired(now, held) {
            return Fate::Leaves(Cause::Expired);
        }
        let main = self.caps.main_cap();
        if main == 0 {
            return Fate::Leaves(Cause::Size);
        }
        if self.probation.len() + self.protected.len() < main {
            return Fate::Enters;
        }
        match self.probation.peek_lru() {
            Some((victim_key, victim)) => {
                if self.caps.is_expired(now, victim) {
                    return Fate::Ousts(Cause::Expired);
                }
                if estimate_for(sketch, victim_key) < estimate_for(sketch, &key) {
                    return Fate::Ousts(Cause::Size);
                }
                Fate::Leaves(Cause::Size)
            }
            None => Fate::Leaves(Cause::Size),
        }
    }

    // Brings the entry to the front of a full window, whose last goes to probation's front. If the
    // second push fails, a pop undoes the first one.
    pub(crate) fn pass_on(&mut self, key: K, held: Held<V>) -> Result<(), NoMemory>
        requires full { HasFullWindow K.eq V.measure key self.old }
        ensures state { OnOk result (self.new ≡ passed_on (key, held) self.old) }
        ensures err { OnErr result (self.new ≡ self.old) }
    {
        let Some((last_key, last)) = self.window.peek_lru() else {
            unreachable!();
        };
        let (last_key, last) = (*last_key, last.share_held()?);
        push_new(&mut self.probation, last_key, last)?;
        if push_past(&mut self.window, key, held).is_err() {
            drop(self.probation.pop_entry(&last_key));
            return Err(NoMemory);
        }
        Ok(())
    }

    // Brings a new entry to the front of a full window, whose last entry goes where its fate
    // decides. Returns the weight that left.
    fn settle_full(
        &mut self,
        key: K,
        held: Held<V>,
        sketch: &Sketch,
        notices: &mut Notices<K, V>,
    ) -> Result<u64, NoMemory>
        requires full { HasFullWindow K.eq V.measure key self.old }
        requires room { 0 < notices.old.room }
        ensures state { OnOk result (self.new
            ≡ (overflowing K.word sketch.now key held self.old).0) }
        ensures notices { OnOk result (notices.new
            ≡ appended (overflowing K.word sketch.now key held self.old).1 notices.old) }
        ensures weight { IfOk result (WeighsUp (weight_of (grown (key, held) self.old)) self.new) }
        ensures err { OnErr result ((self.new ≡ self.old) × (notices.new ≡ notices.old)) }
    {
        let Some((last_key, last)) = self.window.peek_lru() else {
            unreachable!();
        };
        match self.fate_of(*last_key, last, sketch, held.written) {
            Fate::Leaves(cause) => {
                let left = push_past(&mut self.window, key, held)?;
                Ok(tell_left(notices, left, cause))
            }
            Fate::Enters => {
                self.pass_on(key, held)?;
                Ok(0)
            }
            Fate::Ousts(cause) => {
                self.pass_on(key, held)?;
                Ok(tell_left(notices, self.probation.pop_lru(), cause))
            }
        }
    }

    // A new entry comes to window's front, at the moment when it was written. A full window gives up
    // its last. Answers the weight that left.
    pub(crate) fn settle(
        &mut self,
        key: K,
        held: Held<V>,
        sketch: &Sketch,
        notices: &mut Notices<K, V>,
    ) -> Result<u64, NoMemory>
        requires placed { IsPlaced K.eq V.measure self.old }
        requires elsewhere { held_for K.eq key self.old ≡ None }
        requires room { 0 < notices.old.room }
        ensures state { OnOk result (self.new ≡ (settling K.word sketch.now key held self.old).0) }
        ensures notices { OnOk result (notices.new
            ≡ appended (settling K.word sketch.now key held self.old).1 notices.old) }
        ensures weight { IfOk result (WeighsUp (weight_of self.old + held.weight) self.new) }
        ensures err { OnErr result ((self.new ≡ self.old) × (notices.new ≡ notices.old)) }
    {
        if self.window.len() < self.caps.window as usize {
            push_new(&mut self.window, key, held)?;
            return Ok(0);
        }
        self.settle_full(key, held, sketch, notices)
    }
}
