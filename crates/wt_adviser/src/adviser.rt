// Miniature simulation (Waldspurger, Saemundsson, Ahmad, Park, 2017) of four windows:
//
//   look-up ──► of the sample? ──► counted, and looked up in four small caches, whose windows are
//          │                       1, 10, 40 and 100 hundredths: a hit counts for that window
//          └──► after entries / 2 look-ups the window with the most hits is chosen, if it leads the
//               one in use by more than a hundredth of the sample; all counts are taken times 15/16
//
// The small caches obey the rules of the whole one. They share one sketch, since it counts keys and
// not hits.
ghost use Rattle.std.specs.Prelude.{◌≡◌, ◌≤◌, IfOk, IfErr, IsOk, OnOk, OnErr, nat_le, ◌&&◌, if◌then◌else◌, true};
ghost use Rattle.wt_keys.specs.Hash.{mixed};
ghost use Rattle.wt_keys.specs.declared.fault.Fault.TheVariants as fault;
ghost use Rattle.wt_keys.specs.declared.fault.Field.TheVariants.{Entries};
ghost use Rattle.wt_adviser.specs.declared.adviser.Seen.{Seen};
ghost use Rattle.wt_adviser.specs.Advice.{all_seen, opening, passed_on, small_entries, IsShown, sampled_by, saw, saw_by, shown, wanted, wanted_after};

use crate::mark::Mark;
use crate::share::Share;
use crate::small::{Small, look, new_small};
use crate::tally::{Hits, Tally};
use std::alloc::Global;
use std::marker::Model;
use wt_keys::{CacheKey, Fault, Field, NoMemory};
use wt_regions::Notices;
use wt_sketch::Sketch;

// Below this the small caches would look more than every other key up, and cost a look-up too much.
const LEAST_ENTRIES: u32 = 64;
// So that a small cache has at most as many entries as a cache may have.
const MOST_ENTRIES: u32 = 64 * 65_536;
// Ours, as the factors of the hash rows: a sample has to be independent of them and of the shards.
const SAMPLE: u64 = 0xA076_1D64_78BD_642F;

/// Which of the small caches have looked a key up.
#[derive(Clone, Copy, Debug, PartialEq, Eq)]
pub struct Seen {
    /// The one with a window of a hundredth.
    pub hundredth: bool,
    /// The one with a window of a tenth.
    pub tenth: bool,
    /// The one with a window of two fifths.
    pub two_fifths: bool,
    /// The one that is all window.
    pub whole: bool,
}

impl Seen {
    const ALL: Seen = Seen {
        hundredth: true,
        tenth: true,
        two_fifths: true,
        whole: true,
    };

    // Whether all four have seen it.
    pub(crate) fn is_whole(self) -> bool
        ensures { result ≡ true → self ≡ all_seen }
    {
        self == Seen::ALL
    }
}

/// Advises how many entries the window of a cache should hold, from the keys that are looked up.
///
/// Contracts see the small caches as lists. The advice after any list of keys is `wanted_after`, a
/// definition over them.
#[derive(Drop)]
pub struct Adviser<K: CacheKey> {
    // For how many entries it is; never changes.
    entries: u32,
    // A key whose product is below this is of the sample; never changes.
    below: u64,
    tally: Tally,
    // How often each key of the sample was counted: the same for all small caches.
    sketch: Sketch,
    hundredth: Small<K>,
    tenth: Small<K>,
    two_fifths: Small<K>,
    whole: Small<K>,
    // The entries that left the small caches, which nobody reads.
    aside: Notices<K, Mark>,
}

impl<K: CacheKey> Model for Adviser<K> {
    ghost use Rattle.std.specs.Prelude.{◌+◌, length};
    ghost use Rattle.wt_adviser.specs.Advice.{Advice, IsAdvising};

    ghost Value = { Advice K };

    ghost view = { λ a. record {
      entries = a.entries;
      sketch = a.sketch;
      hundredth = a.hundredth;
      tenth = a.tenth;
      two_fifths = a.two_fifths;
      whole = a.whole;
      tally = a.tally;
    } };

    ghost invariant = { λ a. IsAdvising (record {
      entries = a.entries;
      sketch = a.sketch;
      hundredth = a.hundredth;
      tenth = a.tenth;
      two_fifths = a.two_fifths;
      whole = a.whole;
      tally = a.tally;
    }) a.below (a.aside.room + length a.aside.list) };
}

// The part of a word that decides whether it is of the sample.
fn product(word: u64) -> u64
    ensures { result ≡ mixed 0xA0761D6478BD642F word }
{
    SAMPLE.wrapping_mul(word)
}

// How many entries a small cache has: an eighth of the cache's, from 32 to 64, and a sixty-fourth of
// those of a large cache. Ours: with fewer than 32 the sample is too small to choose by.
fn small_entries(entries: u32) -> u32
    ensures { result ≡ small_entries entries }
{
    (entries / 8).clamp(32, 64).max(entries / 64)
}

impl<K: CacheKey> Adviser<K> {
    /// Makes an adviser for a cache, or several with one policy, of `entries` entries in all.
    ///
    /// `BadConfig` of the entries, if they are below 64 or above 4,194,304, comes before `NoMemory`.
    /// Takes memory for the tables of four small caches: of an eighth of the entries, 32 to 64, or of
    /// a sixty-fourth if that is more. O(entries).
    pub fn new(alloc: Global, entries: u32) -> Result<Adviser<K>, Fault>
        ensures ok { IfOk result (λ adviser. adviser ≡ opening entries) }
        ensures within { IsOk result → (nat_le 64 entries && nat_le entries 4194304) ≡ true }
        ensures refusal { IfErr result (λ f. f ≡ (if nat_le 64 entries && nat_le entries 4194304
            then fault.NoMemory else fault.BadConfig Entries)) }
    {
        if entries < LEAST_ENTRIES || entries > MOST_ENTRIES {
            return Err(Fault::BadConfig {
                field: Field::Entries,
            });
        }
        match Adviser::with_small(alloc, entries, small_entries(entries)) {
            Ok(adviser) => Ok(adviser),
            Err(_) => Err(Fault::NoMemory),
        }
    }

    // The same, with small caches of `small` entries.
    #[tactic(auto, unfolding(crate::specs::Advice::sampled_of))]
    fn with_small(alloc: Global, entries: u32, small: u32) -> Result<Adviser<K>, Fault>
        requires within { (64 ≤ entries) × (entries ≤ 4194304) }
        requires made_for { small ≡ small_entries entries }
        ensures { IfOk result (λ adviser. adviser ≡ opening entries) }
    {
        let sketch = Sketch::new(alloc, small)?;
        let aside = Notices::new(alloc, small as usize)?;
        let hundredth = new_small(alloc, small, Share::Hundredth)?;
        let tenth = new_small(alloc, small, Share::Tenth)?;
        let two_fifths = new_small(alloc, small, Share::TwoFifths)?;
        let whole = new_small(alloc, small, Share::Whole)?;
        Ok(Adviser {
            entries,
            below: u64::MAX / (entries / small) as u64,
            tally: Tally::NOTHING,
            sketch,
            hundredth,
            tenth,
            two_fifths,
            whole,
            aside,
        })
    }

    /// Takes note of a look-up of the key, whether it hit or not.
    ///
    /// `NoMemory` if a small cache was refused memory: that one has then not seen the key, and all
    /// else is as with it. So an adviser without memory goes on advising. A key that isn't of the
    /// sample takes no memory. Expected O(1), and O(entries / 64) if the sketch halves.
    pub fn saw(&mut self, key: K) -> Result<(), NoMemory>
        ensures state { OnOk result (self.new ≡ saw K.eq K.word key self.old) }
        ensures err { OnErr result ((seen : Seen)
            × (self.new ≡ saw_by K.eq K.word seen key self.old)) }
    {
        let seen = self.saw_by(key);
        if seen.is_whole() {
            Ok(())
        } else {
            Err(NoMemory)
        }
    }

    /// Takes note of look-ups of these keys, in their order.
    ///
    /// `NoMemory` if a small cache was refused memory for one of them, as [`saw`](Adviser::saw) has
    /// it; those behind it are seen all the same. Expected O(keys), and O(entries / 64) more if the
    /// sketch halves.
    pub fn saw_all(&mut self, keys: &[K]) -> Result<(), NoMemory>
        ensures state { OnOk result (self.new ≡ shown K.eq K.word keys.now self.old) }
        // Whatever was refused.
        ensures part { IsShown K.eq K.word keys.now self.old self.new }
    {
        let mut outcome = Ok(());
        for key in keys {
            let seen = self.saw_by(*key);
            if !seen.is_whole() {
                outcome = Err(NoMemory);
            }
        }
        outcome
    }

    // Takes note of a look-up of the key, and returns which small caches have seen it.
    pub(crate) fn saw_by(&mut self, key: K) -> Seen
        ensures { self.new ≡ saw_by K.eq K.word result key self.old }
    {
        if product(key.word()) < self.below {
            return self.sample(key);
        }
        self.tally.pass(self.entries / 2);
        Seen::ALL
    }

    // The same of a key of the sample.
    fn sample(&mut self, key: K) -> Seen
        ensures { self.new ≡ passed_on (sampled_by K.eq K.word result key self.old) }
    {
        self.sketch.count_all(&[key.word()]);
        let hundredth = look(&mut self.hundredth, key, &self.sketch, &mut self.aside);
        let tenth = look(&mut self.tenth, key, &self.sketch, &mut self.aside);
        let two_fifths = look(&mut self.two_fifths, key, &self.sketch, &mut self.aside);
        let whole = look(&mut self.whole, key, &self.sketch, &mut self.aside);
        self.tally.count(Hits {
            hundredth: hundredth.hit,
            tenth: tenth.hit,
            two_fifths: two_fifths.hit,
            whole: whole.hit,
        });
        self.tally.pass(self.entries / 2);
        Seen {
            hundredth: hundredth.seen,
            tenth: tenth.seen,
            two_fifths: two_fifths.seen,
            whole: whole.seen,
        }
    }

    /// Returns how many entries window should hold: 1 to all of them. Takes no memory. O(1).
    pub fn wanted(&self) -> u32
        ensures answer { result ≡ wanted self.now }
        ensures within { (1 ≤ result) × (result ≤ self.now.entries) }
    {
        self.tally.chosen.window_of(self.entries)
    }
}

/// Returns the window that is advised after look-ups of these keys, for a cache of `entries` entries.
///
/// `BadConfig` as [`Adviser::new`], then `NoMemory`.
pub fn window_after<K: CacheKey>(alloc: Global, entries: u32, keys: &[K]) -> Result<u32, Fault>
    ensures { IfOk result (λ window. window ≡ wanted_after K.eq K.word entries keys.now) }
{
    let mut adviser = Adviser::new(alloc, entries)?;
    adviser.saw_all(keys)?;
    Ok(adviser.wanted())
}
