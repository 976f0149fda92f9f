// A value that knows its key.
ghost use Rattle.std.specs.Prelude.{◌≡◌, IfOk, IsOk, true};

use wt_core::{Measure, Weighs};
use wt_keys::{Answers, CacheKey, NoMemory, Share};

/// A value beside the key that it stands for, so that it is returned for no other key. It weighs 1.
///
/// For a value of your own that is small and `Copy`. A larger one, or one with a weight, is a type
/// of your own that has the same three traits, behind `Shared` if it is costly to copy.
#[derive(Clone, Copy, Debug, PartialEq, Eq)]
pub struct Keyed<K, V> {
    /// The key.
    pub key: K,
    /// The value.
    pub value: V,
}

/// The share is a copy. Never refused.
impl<K: CacheKey, V: Copy> Share for Keyed<K, V> {
    ghost is_copied = { true };

    fn share(&self) -> Result<Keyed<K, V>, NoMemory>
        ensures answer { IfOk result (λ second. second ≡ self.now) }
        ensures succeeds { IsOk result }
    {
        Ok(*self)
    }

    fn is_copied() -> bool {
        true
    }
}

/// Each weighs 1, so a bound of weights is one of entries.
impl<K, V> Weighs for Keyed<K, V> {
    ghost use Rattle.wt_regions.specs.Lists.{lasting};

    ghost measure = { λ kept. lasting 1 };

    fn measure(&self) -> Measure {
        Measure::lasting(1)
    }
}

/// It answers its own key and no other.
impl<K: CacheKey, V> Answers<K> for Keyed<K, V> {
    ghost answers = { λ kept key. K.eq kept.key key };

    fn answers(&self, key: &K) -> bool {
        self.key == *key
    }
}
