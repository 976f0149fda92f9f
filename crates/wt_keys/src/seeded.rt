// Keys under a secret seed, so that no attacker can choose keys that collide.
ghost use Rattle.std.specs.Prelude.{◌≡◌, nat_eq};
ghost use Rattle.std.specs.Hash as fed;
ghost use Rattle.wt_keys.specs.Seeded.{key_of, word_of, seeded, TellsKeysApart};

use crate::key::CacheKey;
use std::hash::{BuildHasher, Hash, Hasher, RandomState};
use std::random::RandomSource;
use std::{fmt, io};

/// A secret of 128 bits, under which keys that strangers pick get words that strangers can't
/// foresee.
///
/// Make one for each cache, and each key of the cache with it: a key that was made under another
/// seed isn't found, but for one chance in 2^64. `Debug` shows nothing of the bits.
#[derive(Clone, Copy, Debug)]
pub struct Seed {
    // Never changes.
    state: RandomState,
}

impl Seed {
    /// Makes a seed of 16 bytes of `source`: the runtime's are those of the operating system.
    ///
    /// The error is the source's. Takes no memory. Not promised: that the bytes are secret.
    pub fn new(source: &impl RandomSource) -> io::Result<Seed> {
        Ok(Seed {
            state: RandomState::new(source)?,
        })
    }

    /// Returns the key with the word that it has under this seed: its SipHash-1-3.
    ///
    /// A function of the two. Takes no memory. O(length of the key): make a key once if it is
    /// used more than once. Words reveal which keys differ, so keep words to yourself.
    pub fn key<K: CacheKey>(&self, key: K) -> Seeded<K>
        ensures { result ≡ seeded K.hash_input self.now key }
    {
        Seeded {
            word: self.state.hash_one(&key),
            key,
        }
    }
}

/// A key that a stranger may have picked, with its word under a seed. Eight bytes larger than the
/// key.
///
/// Tables, hash rows and shards go by the word alone, so that nobody without the seed can pick keys
/// that meet there more often than by chance. That rests on SipHash; no clause promises it.
#[derive(Clone, Copy, PartialEq, Eq)]
pub struct Seeded<K> {
    // Made from the key and a seed, and never changes. Compared first, since nearly all keys differ
    // in it.
    word: u64,
    // Never changes.
    key: K,
}

impl<K> Seeded<K> {
    /// Returns the key itself. O(1).
    pub fn key(&self) -> &K
        ensures { result.now ≡ key_of self.now }
    {
        &self.key
    }
}

/// Feeds the word alone.
impl<K: CacheKey> Hash for Seeded<K> {
    ghost use Rattle.std.proofs.Common.{ap};
    ghost use Rattle.std.proofs.lemmas.Bool.{eqb-true};
    ghost use Rattle.std.specs.Cmp.{first_so};

    ghost hash_input = { λ s. fed.u64 (word_of s) };

    ghost respects_eq = { λ a b e. ap fed.u64 (eqb-true a.word b.word (first_so (nat_eq a.word b.word) (K.PartialEq.eq a.key b.key) e)) };

    fn hash<H: Hasher>(&self, state: &mut H) {
        state.write_u64(self.word);
    }
}

/// The word is the one that the key was made with.
impl<K: CacheKey> CacheKey for Seeded<K> {
    ghost use Rattle.std.proofs.lemmas.Bool.{eqb-true};
    ghost use Rattle.std.specs.Cmp.{first_so, second_so};

    ghost word = { word_of };

    fn word(&self) -> u64 {
        self.word
    }

    ghost same = { λ a b e i. record {
      word = eqb-true a.word b.word (first_so (nat_eq a.word b.word) (K.PartialEq.eq a.key b.key) e) i;
      key = K.same a.key b.key (second_so (nat_eq a.word b.word) (K.PartialEq.eq a.key b.key) e) i;
    } };
}

/// Keys of one seed are equal exactly if the keys that they were made from are.
///
/// A law of the definitions: the function does nothing, and takes no memory.
pub fn seeds_tell_keys_apart<K: CacheKey>()
    ensures { TellsKeysApart ⟦<Seeded<K> as PartialEq>⟧.eq K.PartialEq.eq K.hash_input }
{}

/// Writes the key alone, as the key is written.
impl<K: fmt::Display> fmt::Display for Seeded<K> {
    ghost output = { λ s. K.output (key_of s) };

    fn fmt<W: fmt::Write>(&self, f: &mut fmt::Formatter<W>) -> fmt::Result {
        self.key.fmt(f)
    }
}

/// Writes the key alone, as the key is written.
impl<K: fmt::Debug> fmt::Debug for Seeded<K> {
    fn fmt<W: fmt::Write>(&self, f: &mut fmt::Formatter<W>) -> fmt::Result {
        self.key.fmt(f)
    }
}
