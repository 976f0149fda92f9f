// The three regions and their weight, with the calls that change them.
ghost use Rattle.std.specs.Prelude.{◌≡◌, ◌≤◌, false, None, IfOk, IfErr, IfSome, OnOk, OnErr, IsOk, IsNone, IsSome, IsTrue};
ghost use Rattle.std.specs.List.Sorted.{IsPermutation};
ghost use Rattle.std.specs.Map.{lookup};
ghost use Rattle.wt_regions.specs.Lawful.{FailsByField, caps_fault, store_fault};
ghost use Rattle.wt_regions.specs.Lists.{all_entries, found_at, has_at, no_entries};
ghost use Rattle.wt_regions.specs.Moves.{storing};
ghost use Rattle.wt_regions.specs.Notices.{appended};
ghost use Rattle.wt_regions.specs.Slide.{can_slide, slid};
ghost use Rattle.wt_regions.specs.Steps.{cleaned, cleared, removed};
ghost use Rattle.wt_regions.specs.Touch.{looked_at};
ghost use Rattle.wt_regions.specs.declared.touch.Found.TheVariants as found;

mod reads;

use crate::caches::Caches;
use crate::caps::Caps;
use crate::held::Held;
use crate::notices::{Cause, Notice, Notices};
use crate::touch::Found;
use crate::weighs::{Measure, Weighs};
use std::alloc::Global;
use std::marker::Model;
use wt_keys::{CacheKey, Fault, NoMemory, Share};
use wt_sketch::Sketch;

/// The entries of a cache in three regions: window, probation and protected.
///
/// The structure is W-TinyLFU's. A new entry comes to window, under LRU and without admission. Once
/// main is full, an entry that window gives up enters probation only if it was counted more often
/// than probation's last entry, or if that one has expired. An entry that is used in probation
/// comes to protected. This type decides which entry stays, and never counts a use: the caller
/// passes its sketch in.
///
/// Contracts see three lists, the most recent entry first, and the limits. Moments are the
/// caller's, in milliseconds; no call keeps one but in the entry that it writes or uses.
#[derive(Drop)]
pub struct Regions<K: CacheKey, V: Share + Weighs> {
    caches: Caches<K, V>,
    // The weight of all entries together; at most the bound between calls.
    weight: u64,
    // Whether an entry may be there that has a life of its own.
    lives: bool,
}

impl<K: CacheKey, V: Share + Weighs> Model for Regions<K, V> {
    ghost use Rattle.std.specs.Prelude.{◌≡◌};
    ghost use Rattle.std.specs.Prelude.{false};
    ghost use Rattle.wt_regions.specs.Lawful.{IsLawful};
    ghost use Rattle.wt_regions.specs.Lists.{Lists, lifeless, weight_of};

    ghost Value = { Lists K V };

    ghost view = { λ r. r.caches };

    ghost invariant = { λ r. IsLawful K.eq V.measure r.caches
        × (r.weight ≡ weight_of r.caches)
        × (r.lives ≡ false → IsLawful K.eq (lifeless V.measure) r.caches) };
}

impl<K: CacheKey, V: Share + Weighs> Regions<K, V> {
    /// Makes three empty regions with these limits.
    ///
    /// `BadConfig` names the first field that is out of its range, in the order of the fields, and
    /// comes before memory is asked for. Takes the tables of all three at once; each entry takes
    /// its own place later. O(entries).
    pub fn new(alloc: Global, caps: &Caps) -> Result<Self, Fault>
        ensures ok { IfOk result (λ regions. regions ≡ no_entries caps.now) }
        // The refusals of the limits don't depend on memory.
        ensures refusal { FailsByField (caps_fault caps.now) result }
    {
        if let Some(field) = caps.fault() {
            return Err(Fault::BadConfig { field });
        }
        let caches = Caches::new(alloc, caps)?;
        Ok(Regions {
            caches,
            weight: 0,
            lives: false,
        })
    }

    /// Looks the key up at the moment `now`. A hit is used: it goes to the front of its region, or
    /// from probation to protected.
    ///
    /// Returns `Expired` for an expired entry, which stays where it is. `now` is in milliseconds.
    /// Only a hit takes memory: a share for the caller, and from probation one or two more with a
    /// place for each. So a hit takes none if a share is a copy and the entry isn't in probation.
    /// Expected O(1), unless an attacker chooses the keys (see `Seeded`): the key is looked up in
    /// each region at most twice. The rule of the move is segmented LRU's.
    #[inline(always)]
    pub fn get(&mut self, key: K, now: u64) -> Result<Found<V>, NoMemory>
        ensures found { IfOk result (λ found. found ≡ found_at K.eq key now self.old) }
        ensures state { OnOk result (self.new ≡ looked_at K.eq key now self.old) }
        ensures same { self.new.caps ≡ self.old.caps }
        ensures miss_succeeds { has_at K.eq key now self.old ≡ false → IsOk result }
        ensures hit_succeeds { IsTrue V.Share.is_copied
            → lookup (K.eq key) self.old.probation ≡ None → IsOk result }
        ensures err { OnErr result (self.new ≡ self.old) }
    {
        Ok(self.caches.get(key, now, self.lives)?)
    }

    /// Uses the key's entry as `get` does, if it is in protected, a share is a copy and no entry
    /// expires. Else returns None, and nothing changes: then `get` says the rest.
    ///
    /// `now` is in milliseconds. Takes no memory. Expected O(1), unless an attacker chooses the keys
    /// (see `Seeded`): one search.
    #[inline(always)]
    pub fn use_protected(&mut self, key: K, now: u64) -> Option<V>
        ensures found { IfSome result (λ v. found_at K.eq key now self.old ≡ found.Hit v) }
        ensures state { IsSome result → self.new ≡ looked_at K.eq key now self.old }
        ensures same { self.new.caps ≡ self.old.caps }
        ensures missed { IsNone result → self.new ≡ self.old }
    {
        if !V::is_copied() || self.lives || !self.caches.caps.never_expires() {
            return None;
        }
        let Some(value) = self.caches.use_protected(key, now) else {
            return None;
        };
        Some(value)
    }

    /// Stores the value under the key, at the moment `now` and by the step of number `stamp`.
    ///
    /// It takes the place of an unexpired entry of the key, which leaves as `Replaced`. An expired
    /// one leaves first, as `Expired`, and the value settles as a new entry. Then entries leave as
    /// `Size` while the weights are above the bound, never the one just stored. The notices have
    /// this order.
    ///
    /// `now` is in milliseconds, weights are the caller's. `TooHeavy` comes before memory is asked
    /// for; `NoMemory` if a place or a share of a value that moves was refused. Expected O(1),
    /// unless an attacker chooses the keys (see `Seeded`); O(entries) if a trim takes many out. The
    /// duel is TinyLFU's; that a tie refuses the candidate is ours.
    pub fn store(
        &mut self,
        key: K,
        value: V,
        now: u64,
        stamp: u64,
        sketch: &Sketch,
        notices: &mut Notices<K, V>,
    ) -> Result<(), Fault>
        requires room { self.old.caps.entries ≤ notices.old.room }

        ensures ok { OnOk result ((V.measure value).weight ≤ self.old.caps.bound) }
        ensures state { OnOk result (self.new
            ≡ (storing K.word sketch.now key K.eq V.measure value now stamp self.old).0) }
        ensures notices { OnOk result (notices.new ≡ appended
            (storing K.word sketch.now key K.eq V.measure value now stamp self.old).1 notices.old) }
        ensures same { self.new.caps ≡ self.old.caps }

        ensures refusal { IfErr result (λ f. f ≡ store_fault (V.measure value).weight self.old.caps.bound) }
        ensures err { OnErr result ((self.new ≡ self.old) × (notices.new ≡ notices.old)) }
    {
        let Measure { weight, life } = value.measure();
        let bound = self.caches.caps.bound;
        if weight as u64 > bound {
            return Err(Fault::TooHeavy { weight, bound });
        }
        let held = Held {
            value,
            weight,
            life,
            stamp,
            written: now,
            accessed: now,
        };
        let heavier = self.weight + weight as u64;
        match self.caches.place(key, held, sketch, notices) {
            Ok(gone) => {
                self.weight = self.caches.trim(key, heavier - gone, notices);
                self.lives |= life > 0;
                Ok(())
            }
            Err(_) => Err(Fault::NoMemory),
        }
    }

    /// Takes the key's entry out, and returns whether an unexpired one left.
    ///
    /// It leaves as `Explicit`, an expired one as `Expired`. `now` is in milliseconds. Takes no
    /// memory. Expected O(1), unless an attacker chooses the keys (see `Seeded`).
    pub fn remove(&mut self, key: K, now: u64, notices: &mut Notices<K, V>) -> bool
        requires room { self.old.caps.entries ≤ notices.old.room }
        ensures answer { result ≡ has_at K.eq key now self.old }
        ensures state { self.new ≡ (removed K.eq key now self.old).0 }
        ensures notices { notices.new ≡ appended (removed K.eq key now self.old).1 notices.old }
    {
        let caps = self.caches.caps;
        match self.caches.take_out(key) {
            Some(held) => {
                let cause = caps.cause_of(now, &held, Cause::Explicit);
                let left = !caps.is_expired(now, &held);
                self.weight -= held.weight as u64;
                notices.tell(Notice {
                    key,
                    value: held.value,
                    cause,
                });
                left
            }
            None => false,
        }
    }

    /// Moves the border between window and main by one entry, and returns whether it moved. A
    /// window that may hold all entries can't become wider, nor one that may hold one entry
    /// narrower.
    ///
    /// Window may then hold one entry more, or one less; main the rest, and protected four fifths
    /// of that. No entry leaves. The last of a region that has one too many goes to the front of
    /// another: window's and protected's to probation, probation's to window.
    ///
    /// Takes memory for at most two shares with a place for each, and for the regions' tables as
    /// they grow again; `NoMemory` changes nothing. Expected O(1), unless an attacker chooses the
    /// keys (see `Seeded`) or the allocator copies a table that it shrinks.
    pub fn slide(&mut self, wider: bool) -> Result<bool, NoMemory>
        ensures answer { IfOk result (λ moved. moved ≡ can_slide wider self.old.caps) }
        ensures state { OnOk result (self.new ≡ slid wider self.old) }
        // None leaves, and none comes.
        ensures entries { OnOk result
            (IsPermutation (all_entries self.old) (all_entries self.new)) }
        ensures end_succeeds { can_slide wider self.old.caps ≡ false → IsOk result }
        ensures err { OnErr result (self.new ≡ self.old) }
    {
        Ok(self.caches.slide(wider)?)
    }

    /// Takes every expired entry out, as `Expired`: window, probation, protected, each from last to
    /// first.
    ///
    /// `now` is in milliseconds. Takes no memory. O(entries).
    pub fn clean(&mut self, now: u64, notices: &mut Notices<K, V>)
        requires room { self.old.caps.entries ≤ notices.old.room }
        ensures state { self.new ≡ (cleaned now self.old).0 }
        ensures notices { notices.new ≡ appended (cleaned now self.old).1 notices.old }
    {
        self.weight = self.caches.clean(now, self.weight, notices);
    }

    /// Takes every entry out: window, probation, protected, each from last to first.
    ///
    /// An expired one leaves as `Expired`, another as `Explicit`. `now` is in milliseconds. Takes
    /// no memory. O(entries).
    pub fn clear(&mut self, now: u64, notices: &mut Notices<K, V>)
        requires room { self.old.caps.entries ≤ notices.old.room }
        ensures state { self.new ≡ (cleared now self.old).0 }
        ensures notices { notices.new ≡ appended (cleared now self.old).1 notices.old }
    {
        self.caches.clear(now, notices);
        self.weight = 0;
        self.lives = false;
    }
}
