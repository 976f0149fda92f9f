// Four rows of counters, one place in each for a key:
//
//   word ──► place 0 ──► row 0  .. 3 ..      a count raises each of the four that is below 15,
//        ──► place 1 ──► row 1  .. 5 ..      an estimate is the least of the four: 3 here.
//        ──► place 2 ──► row 2  .. 3 ..      A count of another key raises counters, or brings
//        ──► place 3 ──► row 3  .. 4 ..      the halving of all of them.
//
// At ten additions an entry all counters are halved, so that the past weighs less and less. So an
// estimate is never below what a counter of the key's own would show, stopped at 15 and halved with
// the sketch.
ghost use Rattle.std.specs.Prelude.{◌≡◌, ℕ, ◌*◌, ◌^◌, ◌<◌, ◌≤◌, ◌&&◌, length, IfOk, IfErr, nat_le, if◌then◌else◌};
ghost use Rattle.std.specs.List.{All};
ghost use Rattle.wt_keys.specs.Hash.{bits_for};
ghost use Rattle.wt_keys.specs.declared.fault.Fault.TheVariants.{NoMemory, BadConfig};
ghost use Rattle.wt_keys.specs.declared.fault.Field.TheVariants.{Entries};
ghost use Rattle.wt_sketch.specs.Sketch.{at, rose, counted, counted_words, estimate, estimate_of, row_of, nothing_counted};
ghost use Rattle.wt_sketch.specs.Alone.{alone};
ghost use Rattle.wt_sketch.specs.Lawful.{IsLawful};

use crate::words::{counter_at, halve_row, raise};
use std::alloc::Global;
use std::marker::Model;
use wt_keys::{Fault, Field, bits_for, places};

/// An estimate of how often each key was counted, in which recent counts weigh more.
///
/// A count-min sketch with the reset of TinyLFU. Contracts see it as four lists of counters from 0
/// to 15 and the number of additions; no clause sees how the counters are kept.
#[derive(Drop)]
pub struct Sketch {
    // The entries of its cache; never changes.
    entries: u32,
    // Each row has 2^bits counters; never changes.
    bits: u32,
    // Counts that raised a counter, halved with the counters; below 10 * entries.
    additions: u32,
    row_0: Vec<u64>,
    row_1: Vec<u64>,
    row_2: Vec<u64>,
    row_3: Vec<u64>,
}

impl Model for Sketch {
    ghost use Rattle.std.specs.Prelude.{◌≡◌, ℕ, ◌+◌, ◌*◌, ◌^◌, ◌<◌, ◌≤◌, length};
    ghost use Rattle.wt_keys.specs.Hash.{bits_for};
    ghost use Rattle.wt_sketch.specs.Nibbles.{unpacked};
    ghost use Rattle.wt_sketch.specs.Sketch.{Counters};
    ghost use Rattle.wt_sketch.specs.Packed.{IsPacked};

    ghost Value = { Counters };

    ghost view = { λ s. record {
      entries = s.entries;
      additions = s.additions;
      row_0 = unpacked s.row_0.items;
      row_1 = unpacked s.row_1.items;
      row_2 = unpacked s.row_2.items;
      row_3 = unpacked s.row_3.items;
    } };

    ghost invariant = { λ s. IsPacked s.entries s.bits s.additions (length s.row_0.items) (length s.row_1.items) (length s.row_2.items) (length s.row_3.items) };
}

impl Sketch {
    /// Makes a sketch that counted nothing, for a number of entries from 1 to 65,536.
    ///
    /// `BadConfig` comes before `NoMemory`. Takes two bytes for each place of a row, half a byte a
    /// counter. O(width).
    pub fn new(alloc: Global, entries: u32) -> Result<Sketch, Fault>
        ensures ok { IfOk result (λ sketch. sketch ≡ nothing_counted entries) }
        ensures range { IfOk result (λ _. (1 ≤ entries) × (entries ≤ 65536)) }
        ensures refusal { IfErr result (λ fault. fault
            ≡ (if nat_le 1 entries && nat_le entries 65536 then NoMemory else BadConfig Entries)) }
    {
        if entries == 0 || entries > 65536 {
            return Err(Fault::BadConfig {
                field: Field::Entries,
            });
        }
        let bits = bits_for(entries);
        let words = 1 << (bits - 4);
        Ok(Sketch {
            entries,
            bits,
            additions: 0,
            row_0: vec![in alloc; 0; words]?,
            row_1: vec![in alloc; 0; words]?,
            row_2: vec![in alloc; 0; words]?,
            row_3: vec![in alloc; 0; words]?,
        })
    }

    /// Returns the bits of a place: a row has `2^bits` counters. From 6 to 16, and never changes.
    /// O(1).
    pub fn bits(&self) -> u32
        ensures value { result ≡ bits_for self.now.entries }
        ensures range { (6 ≤ result) × (result ≤ 16) }
    {
        self.bits
    }

    /// Returns how many counts raised a counter, halved whenever the counters are. O(1).
    ///
    /// Its clause `lawful` is true of every sketch: it shows the widths, and that no counter is
    /// above 15.
    pub fn additions(&self) -> u32
        ensures value { result ≡ self.now.additions }
        ensures within { result < 10 * self.now.entries }
        ensures lawful { IsLawful self.now }
    {
        self.additions
    }

    /// Returns the counter of a row, 0 to 3, at a place. O(1).
    pub fn counter(&self, row: usize, place: usize) -> u8
        requires { (row < 4) × (place < 2 ^ bits_for self.now.entries) }
        ensures value { result ≡ at (row_of self.now row) place }
        ensures within { result ≤ 15 }
    {
        match row {
            0 => counter_at(&self.row_0, place),
            1 => counter_at(&self.row_1, place),
            2 => counter_at(&self.row_2, place),
            _ => counter_at(&self.row_3, place),
        }
    }

    /// Returns how often a key was counted, about: the least of the counters at its four places.
    ///
    /// Takes no memory. O(1). It may be above the key's own count, by the counts of keys that share
    /// a place in each row. [`Sketch::count_all`] promises that it isn't below it.
    pub fn estimate(&self, places: &[usize; 4]) -> u8
        requires within { All (λ p. p < 2 ^ bits_for self.now.entries) places.now }
        ensures value { result ≡ estimate places.now self.now }
        ensures within { result ≤ 15 }
    {
        let least = counter_at(&self.row_0, places[0]).min(counter_at(&self.row_1, places[1]));
        least.min(counter_at(&self.row_2, places[2]).min(counter_at(&self.row_3, places[3])))
    }

    /// Counts one occurrence of a key, at its four places, and returns whether a counter rose.
    ///
    /// Counters stop at 15. At ten times `entries` additions all counters and the additions are
    /// halved, rounding down (the reset of TinyLFU; that a count at four full counters is no
    /// addition is ours). Never fails and takes no memory. O(1), and O(width) at a halving.
    #[tactic(auto, unfolding(crate::specs::Sketch::counted))]
    #[inline(always)]
    pub fn count(&mut self, places: &[usize; 4]) -> bool
        requires within { All (λ p. p < 2 ^ bits_for self.old.entries) places.now }
        ensures counted { self.new ≡ counted places.now self.old }
        ensures rose { result ≡ rose places.now self.old }
        ensures same { self.new.entries ≡ self.old.entries }
    {
        let rose_0 = raise(&mut self.row_0, places[0]);
        let rose_1 = raise(&mut self.row_1, places[1]);
        let rose_2 = raise(&mut self.row_2, places[2]);
        let rose_3 = raise(&mut self.row_3, places[3]);
        let rose = rose_0 | (rose_1 | (rose_2 | rose_3));
        if rose {
            self.additions += 1;
            if self.additions == 10 * self.entries {
                self.additions /= 2;
                halve_row(&mut self.row_0);
                halve_row(&mut self.row_1);
                halve_row(&mut self.row_2);
                halve_row(&mut self.row_3);
            }
        }
        rose
    }

    /// Counts each word once, in order, at the word's own places.
    ///
    /// On a sketch that had counted nothing, no word's estimate is then below the number in a
    /// counter of the word's own. Such a counter rises by 1 at each of its counts up to 15, and is
    /// halved when the sketch is. Never fails and takes no memory. O(words), and O(width) at each
    /// halving.
    pub fn count_all(&mut self, words: &[u64])
        ensures counted { self.new ≡ counted_words self.old words.now }
        ensures same { self.new.entries ≡ self.old.entries }
        ensures never_less { self.old ≡ nothing_counted self.old.entries
            → (key : ℕ) → alone key self.old words.now ≤ estimate_of self.new key }
    {
        let bits = self.bits;
        for &word in words {
            let places = places(word, bits);
            self.count(&places);
        }
    }
}
