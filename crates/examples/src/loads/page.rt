// The pages.
use wt_core::{Measure, Weighs};
use wt_keys::{Answers, NoMemory, Share};

/// A page that knows its number, so that no other can be answered for it.
#[derive(Clone, Copy, Debug)]
pub struct Page {
    pub number: u64,
    pub words: u64,
}

impl Share for Page {
    fn share(&self) -> Result<Page, NoMemory> {
        Ok(*self)
    }
}

impl Weighs for Page {
    ghost measure = { λ page. record { weight = 1; life = 0 } };

    fn measure(&self) -> Measure {
        Measure::lasting(1)
    }
}

impl Answers<u64> for Page {
    ghost use Rattle.std.specs.Prelude.{◌==◌};

    ghost answers = { λ page number. page.number == number };

    fn answers(&self, number: &u64) -> bool {
        self.number == *number
    }
}
