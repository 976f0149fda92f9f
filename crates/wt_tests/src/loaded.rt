//! A value that can be compared.
use crate::dice::Dice;
use wt_keys::{Answers, NoMemory, Share};
use wt_regions::{Measure, Weighs};

/// A value with a version, a weight and a life. It answers each key.
#[derive(Clone, Copy, Debug, PartialEq, Eq)]
pub struct Loaded {
    /// Which value it is.
    pub version: u64,
    /// How much it weighs.
    pub weight: u32,
    /// How long it lives, in milliseconds; 0 for no life of its own.
    pub life: u32,
}

impl Share for Loaded {
    fn share(&self) -> Result<Loaded, NoMemory> {
        Ok(*self)
    }
}

impl Weighs for Loaded {
    ghost measure = { λ v. record { weight = v.weight; life = v.life } };

    fn measure(&self) -> Measure {
        Measure {
            weight: self.weight,
            life: self.life,
        }
    }
}

impl Answers<u64> for Loaded {
    ghost use Rattle.std.specs.Prelude.{true};

    ghost answers = { λ v key. true };

    fn answers(&self, _key: &u64) -> bool {
        true
    }
}

/// Returns a value of weight 1.
pub fn light(version: u64) -> Loaded {
    Loaded {
        version,
        weight: 1,
        life: 0,
    }
}

/// Returns a value of a weight below 7. About every third has a life, of at most 8 milliseconds.
pub fn random_value(dice: &mut Dice, version: u64) -> Loaded {
    let weight = u32::try_from(dice.roll(7)).unwrap_or(0);
    let life = match dice.roll(3) {
        0 => u32::try_from(dice.roll(9)).unwrap_or(0),
        _ => 0,
    };
    Loaded {
        version,
        weight,
        life,
    }
}
