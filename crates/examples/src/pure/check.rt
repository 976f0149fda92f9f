// The function, as a source, and its values.
use rookdresser::Loader;
use wt_core::{Measure, Weighs};
use wt_keys::{Answers, NoMemory, Share};

/// A check number.
#[derive(Clone, Copy)]
pub struct Check {
    pub number: u64,
}

impl Share for Check {
    fn share(&self) -> Result<Check, NoMemory> {
        Ok(*self)
    }
}

impl Weighs for Check {
    ghost measure = { λ _. record { weight = 1; life = 0 } };

    fn measure(&self) -> Measure {
        Measure::lasting(1)
    }
}

/// It answers the accounts whose check number it is.
impl Answers<u64> for Check {
    ghost use Rattle.std.specs.Prelude.{◌==◌};
    ghost use Rattle.examples.specs.Check.{check_of};

    ghost answers = { λ check account. check.number == check_of account };

    fn answers(&self, account: &u64) -> bool {
        self.number == *account % 97
    }
}

/// The source of check numbers.
#[derive(Clone, Copy)]
pub struct Checks {}

impl Loader<u64, Check> for Checks {
    fn load(&self, account: &u64) -> Result<Check, u32> {
        let number = *account % 97;
        Ok(Check { number })
    }
}
