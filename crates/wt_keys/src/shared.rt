// A value that many hold at once.
ghost use Rattle.std.specs.Prelude.{◌≡◌, IfOk};
ghost use Rattle.std.specs.Arc.{arc_value};

use crate::fault::NoMemory;
use crate::value::{Answers, Share};
use std::alloc::Global;
use std::marker::Model;
use std::sync::Arc;

/// A value with several owners, in any threads. Contracts see the value that it points to.
///
/// Its share is a further owner of the same value, so a large value is stored once and never
/// copied. The value is dropped with its last owner.
#[derive(Drop)]
pub struct Shared<T> {
    owner: Arc<T, Global>,
}

impl<T> Model for Shared<T> {
    ghost Value = { T };

    ghost view = { λ s. arc_value s.owner };
}

impl<T> Shared<T> {
    /// Moves the value behind a first owner. `NoMemory` drops the value, as no owner of it was
    /// made.
    pub fn new(alloc: Global, value: T) -> Result<Shared<T>, NoMemory>
    where
        T: Drop,
        ensures { IfOk result (λ shared. shared ≡ value) }
    {
        Ok(Shared {
            owner: Arc::new(alloc, value)?,
        })
    }

    /// Returns the value. O(1).
    pub fn get(&self) -> &T
        ensures { result.now ≡ self.now }
    {
        &self.owner
    }
}

/// The share is a further owner. `NoMemory` only if there are 2^64 - 1 of them.
impl<T: Drop> Share for Shared<T> {
    fn share(&self) -> Result<Shared<T>, NoMemory> {
        Ok(Shared {
            owner: self.owner.clone()?,
        })
    }
}

/// It answers the keys that its value answers.
impl<K, T: Answers<K>> Answers<K> for Shared<T> {
    ghost answers = { T.answers };

    fn answers(&self, key: &K) -> bool {
        self.get().answers(key)
    }
}
