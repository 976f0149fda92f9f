ghost use Rattle.std.specs.Prelude.{◌<◌};

mod compare;

use compare::same;
use std::alloc::{AllocError, Global};
use std::test::Fail;
use wt_keys::{Fault, Field, places};
use wt_sketch::{Sketch, halve};

// The requirement of a call on its places is proved here once, and in no loop of a test.
fn count_word(sketch: &mut Sketch, word: u64) -> bool {
    let bits = sketch.bits();
    sketch.count(&places(word, bits))
}

fn places_of(sketch: &Sketch, word: u64) -> [usize; 4] {
    places(word, sketch.bits())
}

fn estimate_of(sketch: &Sketch, word: u64) -> u8 {
    sketch.estimate(&places(word, sketch.bits()))
}

// None if a row has no such place.
fn count_at(sketch: &mut Sketch, place: usize) -> Option<bool> {
    if place >= 1 << sketch.bits() {
        return None;
    }
    Some(sketch.count(&[place; 4]))
}

fn counter_of(sketch: &Sketch, row: usize, place: usize) -> Option<u8> {
    if row >= 4 || place >= 1 << sketch.bits() {
        return None;
    }
    Some(sketch.counter(row, place))
}

// The same rules over plain lists, a counter a byte.
#[derive(Drop)]
struct Plain {
    rows: [Vec<u8>; 4],
    additions: u32,
    halvings: u32,
}

impl Plain {
    fn new(alloc: Global, width: usize) -> Result<Plain, AllocError> {
        Ok(Plain {
            rows: [
                vec![in alloc; 0; width]?,
                vec![in alloc; 0; width]?,
                vec![in alloc; 0; width]?,
                vec![in alloc; 0; width]?,
            ],
            additions: 0,
            halvings: 0,
        })
    }

    fn count(&mut self, places: &[usize; 4], entries: u32) -> bool {
        let rose_0 = raise_plain(&mut self.rows[0], places[0]);
        let rose_1 = raise_plain(&mut self.rows[1], places[1]);
        let rose_2 = raise_plain(&mut self.rows[2], places[2]);
        let rose_3 = raise_plain(&mut self.rows[3], places[3]);
        let rose = rose_0 || rose_1 || rose_2 || rose_3;
        if rose {
            self.additions = self.additions.saturating_add(1);
            if self.additions == entries.saturating_mul(10) {
                self.additions /= 2;
                self.halvings = self.halvings.saturating_add(1);
                halve_plain(&mut self.rows[0]);
                halve_plain(&mut self.rows[1]);
                halve_plain(&mut self.rows[2]);
                halve_plain(&mut self.rows[3]);
            }
        }
        rose
    }
}

fn raise_plain(row: &mut [u8], place: usize) -> bool {
    match row.get_mut(place) {
        Some(counter) if *counter < 15 => {
            *counter += 1;
            true
        }
        _ => false,
    }
}

fn halve_plain(row: &mut [u8]) {
    for counter in row {
        *counter /= 2;
    }
}

// The first place of a row at which the two differ.
fn difference(sketch: &Sketch, row: usize, counters: &[u8]) -> Option<usize>
    requires { row < 4 }
{
    for place in 0..1 << sketch.bits() {
        if counters.get(place) != Some(&sketch.counter(row, place)) {
            return Some(place);
        }
    }
    None
}

// The next number of a stream, by a linear congruence.
fn next(seed: u64) -> u64 {
    seed.wrapping_mul(6_364_136_223_846_793_005)
        .wrapping_add(1_442_695_040_888_963_407)
}

// A key below 256: half of the stream falls on the first four keys.
fn key_of(seed: u64) -> u64 {
    if seed >> 63 == 0 {
        (seed >> 40) % 4
    } else {
        (seed >> 40) % 256
    }
}

#[test]
fn a_counter_stops_at_15_and_all_are_halved(rt: HostRuntime) -> Result<(), Fail> {
    let mut sketch = Sketch::new(rt.alloc(), 2)?;
    for i in 0..20 {
        same(
            &rt,
            "whether the count rose",
            count_word(&mut sketch, 1),
            i < 15,
        );
    }
    same(
        &rt,
        "estimate and additions after 15 counts",
        (estimate_of(&sketch, 1), sketch.additions()),
        (15, 15),
    );
    for _ in 0..5 {
        same(
            &rt,
            "a count of the other word",
            count_word(&mut sketch, 2),
            true,
        );
    }
    same(
        &rt,
        "both estimates after the halving",
        (estimate_of(&sketch, 1), estimate_of(&sketch, 2)),
        (7, 2),
    );
    same(&rt, "additions after the halving", sketch.additions(), 10);
    Ok(())
}

#[test]
fn sixteen_counters_are_halved_at_once(rt: HostRuntime) {
    same(&rt, "15 and 1", halve(0x1F), 0x07);
    same(
        &rt,
        "sixteen times 15",
        halve(u64::MAX),
        0x7777_7777_7777_7777,
    );
    same(&rt, "sixteen times 1", halve(0x1111_1111_1111_1111), 0);
    same(
        &rt,
        "15 down to 0",
        halve(0xFEDC_BA98_7654_3210),
        0x7766_5544_3322_1100,
    );
}

#[test]
fn neighbours_in_a_word_are_kept_apart(rt: HostRuntime) -> Result<(), Fail> {
    let mut sketch = Sketch::new(rt.alloc(), 1)?;
    same(&rt, "bits of the width", sketch.bits(), 6);
    for _ in 0..7 {
        same(
            &rt,
            "a count at place 15",
            count_at(&mut sketch, 15),
            Some(true),
        );
    }
    for _ in 0..3 {
        same(
            &rt,
            "a count at place 14",
            count_at(&mut sketch, 14),
            Some(true),
        );
    }
    same(&rt, "additions after the halving", sketch.additions(), 5);
    for row in 0..4 {
        for (place, counter) in [(15, 3), (14, 1), (13, 0), (16, 0)] {
            same(
                &rt,
                "the counter",
                counter_of(&sketch, row, place),
                Some(counter),
            );
        }
    }
    Ok(())
}

#[test]
fn a_list_of_words_is_counted_in_order(rt: HostRuntime) -> Result<(), Fail> {
    let mut sketch = Sketch::new(rt.alloc(), 100)?;
    sketch.count_all(&[5, 6, 5, 7, 5]);
    same(&rt, "bits of the width", sketch.bits(), 7);
    for (word, estimate) in [(5, 3), (6, 1), (7, 1), (8, 0)] {
        same(&rt, "the estimate", estimate_of(&sketch, word), estimate);
    }
    same(&rt, "the additions", sketch.additions(), 5);
    Ok(())
}

#[test]
fn packed_rows_are_the_plain_lists(rt: HostRuntime) -> Result<(), Fail> {
    let mut sketch = Sketch::new(rt.alloc(), 70)?;
    let mut plain = Plain::new(rt.alloc(), 128)?;
    let mut seed = 2026;
    for i in 0..6_000 {
        seed = next(seed);
        let key = key_of(seed);
        let spots = places_of(&sketch, key);
        same(
            &rt,
            "whether the count rose",
            count_word(&mut sketch, key),
            plain.count(&spots, 70),
        );
        same(&rt, "the additions", sketch.additions(), plain.additions);
        if i % 50 == 0 {
            for row in 0..4 {
                same(
                    &rt,
                    "the first place that differs",
                    difference(&sketch, row, &plain.rows[row]),
                    None,
                );
            }
        }
    }
    same(&rt, "five halvings or more", plain.halvings.min(5), 5);
    Ok(())
}

#[test]
fn no_estimate_is_below_the_own_count(rt: HostRuntime) -> Result<(), Fail> {
    let mut sketch = Sketch::new(rt.alloc(), 70)?;
    let mut own = vec![in rt.alloc(); 0; 256]?;
    let mut seed = 11;
    for _ in 0..2_000 {
        seed = next(seed);
        let key = key_of(seed);
        let before = sketch.additions();
        let rose = count_word(&mut sketch, key);
        raise_plain(&mut own, key as usize);
        if rose && sketch.additions() < before {
            halve_plain(&mut own);
        }
    }
    same(
        &rt,
        "the first key with an estimate below its count",
        first_below(&sketch, &own),
        None,
    );
    Ok(())
}

// The first key whose estimate is below its own counter.
fn first_below(sketch: &Sketch, own: &[u8]) -> Option<usize> {
    for (key, counter) in own.iter().enumerate() {
        if estimate_of(sketch, key as u64) < *counter {
            return Some(key);
        }
    }
    None
}

#[test]
fn entries_are_1_to_65536(rt: HostRuntime) -> Result<(), Fail> {
    for entries in [0, 65_537, u32::MAX] {
        match Sketch::new(rt.alloc(), entries) {
            Ok(_) => return Err(Fail::new("out of range")),
            Err(fault) => {
                same(
                    &rt,
                    "entries out of range",
                    fault,
                    Fault::BadConfig {
                        field: Field::Entries,
                    },
                );
            }
        }
    }
    for (entries, bits) in [
        (1, 6),
        (64, 6),
        (65, 7),
        (32_769, 16),
        (65_535, 16),
        (65_536, 16),
    ] {
        same(
            &rt,
            "bits of the width",
            Sketch::new(rt.alloc(), entries)?.bits(),
            bits,
        );
    }
    Ok(())
}
