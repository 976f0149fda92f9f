// The values that a trace stores: each has its key, and the number of its line.
ghost use Rattle.std.specs.Prelude.{◌≡◌, IfOk, IsOk, true};

use wt_core::{Measure, Weighs};
use wt_keys::{Answers, CacheKey, NoMemory, Share};

/// A value of a trace.
#[derive(Clone, Copy, Debug)]
pub struct Version<K> {
    /// Its key.
    pub key: K,
    /// The number of the line that made it, which the report prints.
    pub line: u64,
    /// Its weight.
    pub weight: u32,
}

/// The share of a version is the version. Never refused.
impl<K: CacheKey> Share for Version<K> {
    ghost is_copied = { true };

    fn share(&self) -> Result<Version<K>, NoMemory>
        ensures answer { IfOk result (λ second. second ≡ self.now) }
        ensures succeeds { IsOk result }
    {
        Ok(*self)
    }

    fn is_copied() -> bool {
        true
    }
}

impl<K> Weighs for Version<K> {
    ghost use Rattle.wt_regions.specs.Lists.{lasting};

    ghost measure = { λ v. lasting v.weight };

    fn measure(&self) -> Measure {
        Measure::lasting(self.weight)
    }
}

/// A value answers its own key, and no other.
impl<K: CacheKey> Answers<K> for Version<K> {
    ghost answers = { λ v k. K.eq v.key k };

    fn answers(&self, key: &K) -> bool {
        self.key == *key
    }
}
