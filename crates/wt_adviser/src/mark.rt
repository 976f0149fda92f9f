// The value that a small cache stores under each key. It takes no room, since only keys count.
ghost use Rattle.std.specs.Prelude.{◌≡◌, IfOk, IsOk, true};

use wt_keys::{NoMemory, Share};
use wt_regions::{Measure, Weighs};

/// The empty value of a small cache.
#[derive(Clone, Copy, Debug, PartialEq, Eq)]
pub struct Mark {}

/// The share of a mark is the mark. Never refused.
impl Share for Mark {
    ghost is_copied = { true };

    fn share(&self) -> Result<Mark, NoMemory>
        ensures answer { IfOk result (λ second. second ≡ self.now) }
        ensures succeeds { IsOk result }
    {
        Ok(*self)
    }

    fn is_copied() -> bool {
        true
    }
}

/// A mark weighs nothing, so that a small cache is bounded by its entries alone.
impl Weighs for Mark {
    ghost use Rattle.wt_adviser.specs.Small.{mark_measure};

    ghost measure = { mark_measure };

    fn measure(&self) -> Measure {
        Measure::lasting(0)
    }
}
