// Stores a value, before the weight is trimmed. The place of the key's own entry decides:
//
//   nowhere                      it settles as a new one
//   window                       it takes the entry's place at the front, expired or not
//   probation, unexpired         it goes where a use of the entry would go
//   protected, unexpired         it takes the entry's place at the front
//   below window, expired        the entry leaves, and it settles as a new one
//
// In the last case the old entry leaves after all that can fail: after a refusal nothing could put
// it back where it was.
ghost use Rattle.std.specs.Prelude.{◌≡◌, ◌+◌, ◌≤◌, ◌++◌, None, IfOk, OnOk, OnErr, IsSome};
ghost use Rattle.std.specs.Map.{lookup};
ghost use Rattle.wt_regions.specs.Lists.{weight_of};
ghost use Rattle.wt_regions.specs.Moves.{HasFullWindow, IsPlaced, WeighsUp, last_expired, passed_live, placing, settled_past, without_below};
ghost use Rattle.wt_regions.specs.Notices.{appended};

use crate::caches::Caches;
use crate::held::Held;
use crate::lru_cache::{held_in, push_new, push_past, replace_in};
use crate::notices::{Cause, Notices, tell_held, tell_left};
use crate::weighs::Weighs;
use wt_keys::{CacheKey, NoMemory, Share};
use wt_sketch::Sketch;

impl<K: CacheKey, V: Share + Weighs> Caches<K, V> {
    // Takes the key's entry out of probation or protected.
    pub(crate) fn take_below(&mut self, key: K) -> Option<Held<V>>
        ensures held { result ≡ lookup (K.eq key) (self.old.probation ++ self.old.protected) }
        ensures state { self.new ≡ without_below K.eq key self.old }
    {
        let first = self.probation.pop(&key);
        let second = self.protected.pop(&key);
        if let Some(held) = first {
            return Some(held);
        }
        second
    }

    // A new entry comes to the front of a full window, whose last leaves it: an expired one is
    // returned, another goes to probation.
    fn make_way(&mut self, key: K, held: Held<V>) -> Result<Option<(K, Held<V>)>, NoMemory>
        requires full { HasFullWindow K.eq V.measure key self.old }
        ensures left { IfOk result (λ r. r ≡ last_expired held.written (key, held) self.old) }
        ensures state { OnOk result (self.new ≡ passed_live held.written (key, held) self.old) }
        ensures err { OnErr result (self.new ≡ self.old) }
    {
        let Some((_, last)) = self.window.peek_lru() else {
            unreachable!();
        };
        if self.caps.is_expired(held.written, last) {
            let left = push_past(&mut self.window, key, held)?;
            return Ok(left);
        }
        self.pass_on(key, held)?;
        Ok(None)
    }

    // A new entry comes to window's front, and an expired one of its key leaves probation or
    // protected, last of all that can be refused. So main has room: the last of a full window goes
    // there, or is expired and leaves. No duel is fought, so any estimate will do. Answers the
    // weight that left.
    fn settle_past(
        &mut self,
        key: K,
        held: Held<V>,
        notices: &mut Notices<K, V>,
    ) -> Result<u64, NoMemory>
        requires placed { IsPlaced K.eq V.measure self.old }
        requires elsewhere { lookup (K.eq key) self.old.window ≡ None }
        requires there { IsSome (lookup (K.eq key) (self.old.probation ++ self.old.protected)) }
        requires room { self.old.caps.entries ≤ notices.old.room }
        ensures state { OnOk result (self.new ≡ (settled_past K.eq key held self.old).0) }
        ensures notices { OnOk result (notices.new
            ≡ appended (settled_past K.eq key held self.old).1 notices.old) }
        ensures weight { IfOk result (WeighsUp (weight_of self.old + held.weight) self.new) }
        ensures err { OnErr result ((self.new ≡ self.old) × (notices.new ≡ notices.old)) }
    {
        if self.window.len() < self.caps.window as usize {
            push_new(&mut self.window, key, held)?;
            let own = self.take_below(key);
            return Ok(tell_held(notices, key, own, Cause::Expired));
        }
        let left = self.make_way(key, held)?;
        let own = self.take_below(key);
        let gone = tell_held(notices, key, own, Cause::Expired);
        Ok(gone + tell_left(notices, left, Cause::Expired))
    }

    // The entry takes the place of one of its key, or settles, at the moment when it was written.
    // Answers the weight that left.
    pub(crate) fn place(
        &mut self,
        key: K,
        held: Held<V>,
        sketch: &Sketch,
        notices: &mut Notices<K, V>,
    ) -> Result<u64, NoMemory>
        requires placed { IsPlaced K.eq V.measure self.old }
        requires room { self.old.caps.entries ≤ notices.old.room }
        ensures state { OnOk result (self.new
            ≡ (placing K.word sketch.now key K.eq held self.old).0) }
        ensures notices { OnOk result (notices.new
            ≡ appended (placing K.word sketch.now key K.eq held self.old).1 notices.old) }
        ensures weight { IfOk result (WeighsUp (weight_of self.old + held.weight) self.new) }
        ensures err { OnErr result ((self.new ≡ self.old) × (notices.new ≡ notices.old)) }
    {
        let now = held.written;
        if let Some(own) = held_in(&self.protected, key) {
            if self.caps.is_expired(now, own) {
                return self.settle_past(key, held, notices);
            }
            let old = replace_in(&mut self.protected, key, held);
            return Ok(tell_held(notices, key, old, Cause::Replaced));
        }
        if let Some(own) = held_in(&self.probation, key) {
            if self.caps.is_expired(now, own) {
                return self.settle_past(key, held, notices);
            }
            let old = self.promote(key, held)?;
            return Ok(tell_held(notices, key, old, Cause::Replaced));
        }
        if let Some(own) = self.window.peek(&key) {
            let cause = self.caps.cause_of(now, own, Cause::Replaced);
            let old = replace_in(&mut self.window, key, held);
            return Ok(tell_held(notices, key, old, cause));
        }
        self.settle(key, held, sketch, notices)
    }
}
