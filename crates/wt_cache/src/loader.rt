// The trait of loaders: the user's code that loads the value of a missing key.
ghost use Rattle.std.specs.Prelude.{IsTrue, IfOk};

use wt_keys::Answers;

/// The user's code that loads the value of a key, in the caller's thread or in a worker's.
///
/// Threads share a cache only if its loader is `Sync`.
pub trait Loader<K, V: Answers<K>> {
    ghost use Rattle.std.specs.Prelude.{⊤, ℕ, Result};

    /// What a load of the key may return: anything that answers the key, unless the loader narrows
    /// it.
    ghost may_return: { Self → K → Result V ℕ → Type 0 } = { λ _ _ _. ⊤ };

    /// Loads the value of the key, or returns a code of the loader's own.
    ///
    /// It is called with no lock held, by several threads at once for different keys. It must not
    /// ask the cache for its own key: it would wait for itself. That it returns is not promised.
    fn load(&self, key: &K) -> Result<V, u32>
        ensures answers { IfOk result (λ value. IsTrue (V.answers value key.now)) }
        ensures returns { may_return self.now key.now result };
}

/// A cache may borrow its loader.
impl<K, V: Answers<K>, L: Loader<K, V>> Loader<K, V> for &L {
    ghost may_return = { λ loader. L.may_return loader.now };

    fn load(&self, key: &K) -> Result<V, u32> {
        (**self).load(key)
    }
}
