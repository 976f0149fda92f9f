// What a cache asks of a value: its weight, and how long it may live.
ghost use Rattle.std.specs.Prelude.{◌≡◌, ℕ};
ghost use Rattle.wt_regions.specs.declared.weighs.Measure.{Measure};
ghost use Rattle.wt_regions.specs.Lists.{lasting, living};

use wt_keys::Shared;

/// A value's weight, and its life if it has one.
#[derive(Clone, Copy, Debug, PartialEq, Eq)]
pub struct Measure {
    /// The weight, in the caller's own unit.
    pub weight: u32,
    /// How long after it was written an entry of the value expires, in milliseconds; 0 if the value
    /// has no life of its own.
    pub life: u32,
}

impl Measure {
    /// The measure of a value that expires by the cache's own durations alone.
    pub fn lasting(weight: u32) -> Measure
        ensures { result ≡ lasting weight }
    {
        Measure { weight, life: 0 }
    }

    /// The measure of a value that expires `life` milliseconds after it was written, or earlier by
    /// the cache's own durations. A life of 0 counts as 1. The longest is 49 days.
    pub fn living(weight: u32, life: u32) -> Measure
        ensures { result ≡ living weight life }
    {
        Measure {
            weight,
            life: life.max(1),
        }
    }
}

/// A value that knows its weight and its life.
pub trait Weighs {
    ghost measure: { Self → Measure };

    /// Returns the value's measure, a function of the value. O(1), and takes no memory.
    fn measure(&self) -> Measure
        ensures { result ≡ measure self.now };
}

/// A shared value has the measure of the value behind it.
impl<T: Weighs> Weighs for Shared<T> {
    ghost measure = { T.measure };

    fn measure(&self) -> Measure {
        self.get().measure()
    }
}
