//! Calls on a key, as rows of a table or by chance.
use crate::dice::Dice;
use crate::fussy::Fussy;
use crate::loaded::{Loaded, random_value};
use wt_core::{Call, Land};

/// The call; a landing with its id.
#[derive(Clone, Copy)]
pub enum Do {
    Look,
    Seek,
    Keep(u64, Loaded),
    Loose(u64),
    Fail(u64),
    Put(Loaded),
    DropKey,
    Clear,
    Forget,
    Clean,
    Slide(bool),
}

/// Returns the call that does it to the key.
pub fn call_of(act: Do, key: u64, now: u64) -> Call<u64, Loaded> {
    match act {
        Do::Look => Call::Look(key, now),
        Do::Seek => Call::Seek(key, now),
        Do::Keep(id, value) => Call::Land(id, key, Land::Keep(value), now),
        Do::Loose(id) => Call::Land(id, key, Land::Loose, now),
        Do::Fail(id) => Call::Land(id, key, Land::Failed, now),
        Do::Put(value) => Call::Put(key, value, now),
        Do::DropKey => Call::DropKey(key, now),
        Do::Clear => Call::Clear(now),
        Do::Forget => Call::Forget(key, now),
        Do::Clean => Call::Clean(now),
        Do::Slide(wider) => Call::Slide { wider, now },
    }
}

/// A call whose shares are refused one after another. A put and a landing get their value anew at
/// each try.
#[derive(Clone, Copy)]
pub enum Step {
    Put,
    Look,
    Seek,
    Land(u64),
}

/// Returns the call that makes the step on the key, with this value.
pub fn call_with(step: Step, key: u64, value: Fussy, now: u64) -> Call<u64, Fussy> {
    match step {
        Step::Put => Call::Put(key, value, now),
        Step::Look => Call::Look(key, now),
        Step::Seek => Call::Seek(key, now),
        Step::Land(id) => Call::Land(id, key, Land::Keep(value), now),
    }
}

/// Returns what is done next to a key: mostly seeks, and landings of its own load, whose id is
/// `own`, or now and then of any id below `ids`.
pub fn choose(dice: &mut Dice, own: Option<u64>, ids: u64, version: u64) -> Do {
    let value = random_value(dice, version);
    let id = match own {
        Some(id) if dice.roll(6) > 0 => id,
        _ => dice.roll(ids),
    };
    match dice.roll(43) {
        0 => Do::DropKey,
        1 => Do::Clean,
        2 => Do::Clear,
        3 => Do::Forget,
        4..=9 => Do::Look,
        10..=15 => Do::Put(value),
        16..=17 => Do::Fail(id),
        18..=19 => Do::Loose(id),
        20..=27 => Do::Keep(id, value),
        28..=29 => Do::Slide(true),
        30 => Do::Slide(false),
        _ => Do::Seek,
    }
}
