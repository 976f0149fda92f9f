// The use of an entry, by the rule of segmented LRU:
//
//   window     ──► window's front
//   probation  ──► protected's front; past its cap, protected's last ──► probation's front
//   protected  ──► protected's front
//
// A look first finds the region, and makes the shares that the move needs; then the entry moves.
ghost use Rattle.std.specs.Prelude.{◌≡◌, false, None, IfOk, IfSome, OnOk, OnErr, IsOk, IsNone, IsSome, IsTrue, is_some, ◌||◌};
ghost use Rattle.std.specs.List.{IsDistinct};
ghost use Rattle.std.specs.Map.{keys_of, lookup};
ghost use Rattle.wt_regions.specs.Lists.{all_entries, found_at, has_at};
ghost use Rattle.wt_regions.specs.Moves.{HasNoLives, IsPlaced, seen_at};
ghost use Rattle.wt_regions.specs.Touch.{looked_at, touched};
ghost use Rattle.wt_regions.specs.declared.touch.Found.TheVariants as found;

use crate::caches::Caches;
use crate::held::Held;
use crate::lru_cache::{freshen, held_in, push_new, push_past, replace_in, use_in};
use crate::weighs::Weighs;
use wt_keys::{CacheKey, NoMemory, Share};

/// The result of a look-up.
#[derive(Drop)]
pub enum Found<V> {
    /// An unexpired entry, with a share of its value.
    Hit(V),
    /// No entry.
    Absent,
    /// An expired entry, which is left where it is.
    Expired,
}

// The place where a look finds the key's entry, with a share of its value. In probation also a
// second share, for protected.
#[derive(Drop)]
pub(crate) enum Seen<V> {
    InWindow(V),
    InProbation(V, Held<V>),
    InProtected(V),
    Nowhere,
    Expired,
}

impl<K: CacheKey, V: Share + Weighs> Caches<K, V> {
    // Looks the key up, and makes the shares. Only a hit takes memory, and none if a share is a copy.
    // Protected comes first: most look-ups that hit find their entry there.
    fn look(&self, key: K, now: u64) -> Result<Seen<V>, NoMemory>
        requires { IsDistinct K.eq (keys_of (all_entries self.now)) }
        ensures found { IfOk result (λ seen. seen ≡ seen_at K.eq key now self.now) }
        ensures miss_succeeds { has_at K.eq key now self.now ≡ false → IsOk result }
        ensures hit_succeeds { IsTrue V.Share.is_copied → IsOk result }
    {
        if let Some(held) = held_in(&self.protected, key) {
            if self.caps.is_expired(now, held) {
                return Ok(Seen::Expired);
            }
            return Ok(Seen::InProtected(held.value.share()?));
        }
        if let Some(held) = held_in(&self.probation, key) {
            if self.caps.is_expired(now, held) {
                return Ok(Seen::Expired);
            }
            let value = held.value.share()?;
            return Ok(Seen::InProbation(value, held.share_used(now)?));
        }
        if let Some(held) = self.window.peek(&key) {
            if self.caps.is_expired(now, held) {
                return Ok(Seen::Expired);
            }
            return Ok(Seen::InWindow(held.value.share()?));
        }
        Ok(Seen::Nowhere)
    }

    // Looks the key up, and a hit is used. `lives` is whether an entry may have a life of its own.
    // Inlined, so that a hit in protected, which is the most frequent one, is one search and no more.
    #[inline(always)]
    pub(crate) fn get(&mut self, key: K, now: u64, lives: bool) -> Result<Found<V>, NoMemory>
        requires placed { IsPlaced K.eq V.measure self.old }
        requires lives { lives ≡ false → HasNoLives self.old }
        ensures found { IfOk result (λ found. found ≡ found_at K.eq key now self.old) }
        ensures state { OnOk result (self.new ≡ looked_at K.eq key now self.old) }
        ensures miss_succeeds { has_at K.eq key now self.old ≡ false → IsOk result }
        ensures hit_succeeds { IsTrue V.Share.is_copied
            → lookup (K.eq key) self.old.probation ≡ None → IsOk result }
        ensures err { OnErr result (self.new ≡ self.old) }
    {
        if V::is_copied() && !lives && self.caps.never_expires() {
            return self.get_copied(key, now);
        }
        self.get_shared(key, now)
    }

    // The same for shares of any kind, and entries that may expire.
    fn get_shared(&mut self, key: K, now: u64) -> Result<Found<V>, NoMemory>
        requires placed { IsPlaced K.eq V.measure self.old }
        ensures found { IfOk result (λ found. found ≡ found_at K.eq key now self.old) }
        ensures state { OnOk result (self.new ≡ looked_at K.eq key now self.old) }
        ensures miss_succeeds { has_at K.eq key now self.old ≡ false → IsOk result }
        ensures hit_succeeds { IsTrue V.Share.is_copied
            → lookup (K.eq key) self.old.probation ≡ None → IsOk result }
        ensures err { OnErr result (self.new ≡ self.old) }
    {
        match self.look(key, now)? {
            Seen::InWindow(value) => {
                freshen(&mut self.window, key, now);
                Ok(Found::Hit(value))
            }
            Seen::InProbation(value, moved) => {
                drop(self.promote(key, moved)?);
                Ok(Found::Hit(value))
            }
            Seen::InProtected(value) => {
                freshen(&mut self.protected, key, now);
                Ok(Found::Hit(value))
            }
            Seen::Nowhere => Ok(Found::Absent),
            Seen::Expired => Ok(Found::Expired),
        }
    }

    // The same if a share is a copy and no entry expires.
    #[inline(always)]
    fn get_copied(&mut self, key: K, now: u64) -> Result<Found<V>, NoMemory>
        requires placed { IsPlaced K.eq V.measure self.old }
        requires copied { IsTrue V.Share.is_copied }
        requires lasting { HasNoLives self.old }
        requires unaging { is_some self.old.caps.after_write || is_some self.old.caps.after_access
            ≡ false }
        ensures found { IfOk result (λ found. found ≡ found_at K.eq key now self.old) }
        ensures state { OnOk result (self.new ≡ looked_at K.eq key now self.old) }
        ensures miss_succeeds { has_at K.eq key now self.old ≡ false → IsOk result }
        ensures hit_succeeds { lookup (K.eq key) self.old.probation ≡ None → IsOk result }
        ensures err { OnErr result (self.new ≡ self.old) }
    {
        if let Some(value) = self.use_protected(key, now) {
            return Ok(Found::Hit(value));
        }
        self.get_unprotected(key, now)
    }

    // Uses the key's entry if it is in protected: the look itself brings it to the front. Takes no
    // memory.
    #[inline(always)]
    pub(crate) fn use_protected(&mut self, key: K, now: u64) -> Option<V>
        requires placed { IsPlaced K.eq V.measure self.old }
        requires copied { IsTrue V.Share.is_copied }
        requires lasting { HasNoLives self.old }
        requires unaging { is_some self.old.caps.after_write || is_some self.old.caps.after_access
            ≡ false }
        ensures found { IfSome result (λ v. found_at K.eq key now self.old ≡ found.Hit v) }
        ensures state { IsSome result → self.new ≡ looked_at K.eq key now self.old }
        ensures missed { IsNone result → self.new ≡ self.old }
        ensures unprotected { IsNone result → lookup (K.eq key) self.old.protected ≡ None }
    {
        let Some(value) = use_in(&mut self.protected, key, now) else {
            return None;
        };
        Some(value)
    }

    // The same of a key that isn't in protected.
    fn get_unprotected(&mut self, key: K, now: u64) -> Result<Found<V>, NoMemory>
        requires placed { IsPlaced K.eq V.measure self.old }
        requires copied { IsTrue V.Share.is_copied }
        requires lasting { HasNoLives self.old }
        requires unaging { is_some self.old.caps.after_write || is_some self.old.caps.after_access
            ≡ false }
        requires unprotected { lookup (K.eq key) self.old.protected ≡ None }
        ensures found { IfOk result (λ found. found ≡ found_at K.eq key now self.old) }
        ensures state { OnOk result (self.new ≡ looked_at K.eq key now self.old) }
        ensures miss_succeeds { has_at K.eq key now self.old ≡ false → IsOk result }
        ensures hit_succeeds { lookup (K.eq key) self.old.probation ≡ None → IsOk result }
        ensures err { OnErr result (self.new ≡ self.old) }
    {
        if let Some(held) = held_in(&self.probation, key) {
            let value = held.value.share()?;
            let moved = held.share_used(now)?;
            drop(self.promote(key, moved)?);
            return Ok(Found::Hit(value));
        }
        if let Some(value) = use_in(&mut self.window, key, now) {
            return Ok(Found::Hit(value));
        }
        Ok(Found::Absent)
    }

    // Brings the key's entry from probation to protected's front, with other contents, and returns
    // the old ones. If protected is then past its cap, its last entry goes back to probation's
    // front.
    //
    // The pushes come first. If the second one fails, a pop undoes the first one.
    pub(crate) fn promote(&mut self, key: K, moved: Held<V>) -> Result<Option<Held<V>>, NoMemory>
        requires placed { IsPlaced K.eq V.measure self.old }
        requires elsewhere { lookup (K.eq key) self.old.window ≡ None }
        requires there { IsSome (lookup (K.eq key) self.old.probation) }
        ensures held { IfOk result (λ old. old ≡ lookup (K.eq key) self.old.probation) }
        ensures state { OnOk result (self.new ≡ touched K.eq key (λ _. moved) self.old) }
        ensures err { OnErr result (self.new ≡ self.old) }
    {
        if self.protected.len() < self.caps.protected_cap() {
            push_new(&mut self.protected, key, moved)?;
            return Ok(self.probation.pop(&key));
        }
        let Some((last_key, last)) = self.protected.peek_lru() else {
            return Ok(replace_in(&mut self.probation, key, moved));
        };
        let back = last.share_held()?;
        let back_key = *last_key;
        push_new(&mut self.probation, back_key, back)?;
        if push_past(&mut self.protected, key, moved).is_err() {
            drop(self.probation.pop_entry(&back_key));
            return Err(NoMemory);
        }
        Ok(self.probation.pop(&key))
    }
}
