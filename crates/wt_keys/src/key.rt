// The trait of keys, and numbers as keys.
ghost use Rattle.std.specs.Prelude.{◌≡◌, ℕ, true};

use std::hash::Hash;

/// A key of a cache: a small value that is copied, and that has a word.
///
/// The word is a function of the key, of 64 bits. The places of a key in the hash rows and its
/// shard are made from it, so that keys with one word are counted together, and lie in one shard.
/// Keys that compare equal must be equal, since a look-up finds an entry by an equal key, and a
/// notice returns the entry's own.
///
/// Everybody can foresee the words and hashes of plain keys: make keys from outside
/// [`Seeded`](crate::Seeded).
pub trait CacheKey: Copy + Eq + Hash + Send + Sync {
    ghost word: { Self → ℕ };

    /// Returns the key's word. O(1), and takes no memory.
    fn word(&self) -> u64
        ensures { result ≡ word self.now };

    /// Keys that compare equal are equal.
    ghost same: { (a b : Self) → Self.PartialEq.eq a b ≡ true → a ≡ b };
}

/// The word of a number is the number itself.
impl CacheKey for u64 {
    ghost use Rattle.std.proofs.lemmas.Bool.{eqb-true};

    ghost word = { λ n. n };

    fn word(&self) -> u64 {
        *self
    }

    ghost same = { λ a b e. eqb-true a b e };
}
