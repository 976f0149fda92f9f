// Windows that are advised after streams of each kind. `window_after` of tools/model/adviser.py
// returns the same ones.
mod compare;

use compare::same;
use std::alloc::{AllocError, Global};
use std::process::Abort;
use std::test::Fail;
use wt_adviser::{Adviser, window_after};
use wt_keys::{Fault, Field};
use wt_tests::Dice;

// Every other look-up is of a new key, which comes once more after 280 look-ups.
fn key_of_pair(lookup: u64) -> u64 {
    if lookup % 2 == 0 {
        (lookup / 2).saturating_add(140)
    } else {
        lookup / 2
    }
}

fn pairs(alloc: Global, lookups: u64) -> Result<Vec<u64>, AllocError> {
    let mut keys = Vec::new(alloc);
    for lookup in 0..lookups {
        keys.push(key_of_pair(lookup))?;
    }
    Ok(keys)
}

// Half of the look-ups are of popular keys, small ones more often. The others are of keys that are
// looked up once.
fn popular_in_a_scan(alloc: Global, lookups: u64, popular: u64) -> Result<Vec<u64>, AllocError> {
    let (mut keys, mut dice) = (Vec::new(alloc), Dice(2026));
    for lookup in 0..lookups {
        if dice.roll(2) == 0 {
            let sides = dice.roll(popular).saturating_add(1);
            keys.push(dice.roll(sides))?;
        } else {
            keys.push(lookup.saturating_add(1_000_000))?;
        }
    }
    Ok(keys)
}

fn window_after_pairs(alloc: Global, lookups: u64) -> Result<u32, Fail> {
    let keys = pairs(alloc, lookups)?;
    Ok(window_after(alloc, 512, &keys)?)
}

fn window_after_scan(alloc: Global, entries: u32, lookups: u64, popular: u64) -> Result<u32, Fail> {
    let keys = popular_in_a_scan(alloc, lookups, popular)?;
    Ok(window_after(alloc, entries, &keys)?)
}

// None of the look-ups is of a key that was looked up before.
fn first_window(alloc: Global, entries: u32) -> Result<u32, Fault> {
    let none: [u64; 0] = [];
    window_after(alloc, entries, &none)
}

#[test]
fn an_adviser_begins_with_a_tenth(rt: HostRuntime) {
    let rows = [
        (64, 6),
        (512, 51),
        (1000, 100),
        (4096, 409),
        (4_194_304, 419_430),
    ];
    for (entries, window) in rows {
        let advised = first_window(rt.alloc(), entries);
        same(
            &rt,
            "entries and the window",
            (entries, advised),
            (entries, Ok(window)),
        );
    }
}

#[test]
fn entries_are_64_to_4194304(rt: HostRuntime) {
    let refused = Err(Fault::BadConfig {
        field: Field::Entries,
    });
    for entries in [0, 1, 63, 4_194_305, u32::MAX] {
        let advised = first_window(rt.alloc(), entries);
        same(
            &rt,
            "entries and the fault",
            (entries, advised),
            (entries, refused),
        );
    }
}

#[test]
fn keys_that_come_twice_want_all_as_window(rt: HostRuntime) -> Result<(), Fail> {
    for (lookups, window) in [(1023, 51), (1024, 512), (4096, 512)] {
        let advised = window_after_pairs(rt.alloc(), lookups)?;
        same(
            &rt,
            "look-ups and the window",
            (lookups, advised),
            (lookups, window),
        );
    }
    Ok(())
}

#[test]
fn popular_keys_in_a_scan_want_a_narrow_window(rt: HostRuntime) -> Result<(), Fail> {
    let rows = [
        (64, 30, 159, 6),
        (64, 30, 160, 25),
        (64, 30, 1663, 25),
        (64, 30, 1664, 1),
        (64, 30, 8192, 1),
        (512, 200, 4863, 51),
        (512, 200, 4864, 5),
        (512, 200, 8192, 5),
        (512, 250, 1535, 51),
        (512, 250, 1536, 204),
        (512, 250, 6655, 204),
        (512, 250, 6656, 51),
        (512, 300, 8192, 51),
    ];
    for (entries, popular, lookups, window) in rows {
        let advised = window_after_scan(rt.alloc(), entries, lookups, popular)?;
        same(
            &rt,
            "entries, popular keys, look-ups and the window",
            (entries, popular, lookups, advised),
            (entries, popular, lookups, window),
        );
    }
    Ok(())
}

// Where the first is refused memory it is made once more.
fn new_adviser(alloc: Global) -> Result<Adviser<u64>, Fault> {
    match Adviser::new(alloc, 512) {
        Ok(adviser) => Ok(adviser),
        Err(_) => Adviser::new(alloc, 512),
    }
}

// How many of the look-ups were refused memory.
fn see_pairs(adviser: &mut Adviser<u64>, lookups: u64) -> u64 {
    let mut refused = 0u64;
    for lookup in 0..lookups {
        if adviser.saw(key_of_pair(lookup)).is_err() {
            refused = refused.saturating_add(1);
        }
    }
    refused
}

fn advise(rt: &impl Abort, adviser: &mut Adviser<u64>) {
    let refused = see_pairs(adviser, 2048);
    same(
        rt,
        "one look-up is refused at most",
        refused,
        refused.min(1),
    );
    same(rt, "the window", adviser.wanted(), 512);
}

#[test]
fn an_adviser_goes_on_where_memory_is_refused(rt: HostRuntime) -> Result<(), Fail> {
    let mut adviser = new_adviser(rt.alloc())?;
    advise(&rt, &mut adviser);
    Ok(())
}
