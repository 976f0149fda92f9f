// The pages that the cache holds.
use wt_core::{Measure, Weighs};
use wt_keys::{Answers, NoMemory, Share};

/// A page of a site: its number, and the version of its text.
#[derive(Clone, Copy, Debug, PartialEq, Eq)]
pub struct Page {
    pub number: u64,
    pub version: u64,
}

/// The share of a page is the page.
impl Share for Page {
    fn share(&self) -> Result<Page, NoMemory> {
        Ok(*self)
    }
}

/// Each page weighs 1.
impl Weighs for Page {
    ghost measure = { λ page. record { weight = 1; life = 0 } };

    fn measure(&self) -> Measure {
        Measure::lasting(1)
    }
}

/// A page stands for its own number alone.
impl Answers<u64> for Page {
    ghost use Rattle.std.specs.Prelude.{◌==◌};

    ghost answers = { λ page key. page.number == key };

    fn answers(&self, key: &u64) -> bool {
        self.number == *key
    }
}
