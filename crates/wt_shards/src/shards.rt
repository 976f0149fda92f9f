// Shards behind locks.
ghost use Rattle.std.specs.Prelude.{◌≡◌};

mod calls;
mod ending;
mod opening;
mod reads;
mod sweeps;

use crate::books::Books;
use crate::recorded::Recorded;
use crate::value::Value;
use std::marker::Model;
use wt_core::Config;
use wt_keys::CacheKey;
use wt_stripes::Striped;

/// Audited shards of a cache, 1, 2 or 4 of them, each with the history of its calls behind a lock of
/// its own.
///
/// Shared by all threads. The numbers in use are those below `shards`; the other fields are None. A
/// contract knows only the type of a value behind a lock, so the types of a field's ledgers carry
/// the number of its shard.
#[derive(Drop)]
pub struct Shards<K: CacheKey, V: Value<K>, B: Books> {
    // How many are in use, and the settings of each; never change.
    pub(crate) shards: usize,
    pub(crate) config: Config,
    pub(crate) zero: Option<Striped<Recorded<K, V, B::S0, B::H0>>>,
    pub(crate) one: Option<Striped<Recorded<K, V, B::S1, B::H1>>>,
    pub(crate) two: Option<Striped<Recorded<K, V, B::S2, B::H2>>>,
    pub(crate) three: Option<Striped<Recorded<K, V, B::S3, B::H3>>>,
}

impl<K: CacheKey, V: Value<K>, B: Books> Model for Shards<K, V, B> {
    ghost use Rattle.std.specs.Prelude.{◌≡◌, ◌<◌, ◌==◌, ◌||◌, ◌↔◌, IsSome, IsTrue};
    ghost use Rattle.wt_shards.specs.Place.{Layout};

    ghost Value = { Layout };

    ghost view = { λ s. record { shards = s.shards; config = s.config } };

    ghost invariant = { λ s. IsTrue (s.shards == 1 || (s.shards == 2 || s.shards == 4))
        × (B.S0.ShardLedger.place
        ≡ record { index = 0; shards = s.shards; config = s.config })
        × (1 < s.shards → B.S1.ShardLedger.place
        ≡ record { index = 1; shards = s.shards; config = s.config })
        × (2 < s.shards → B.S2.ShardLedger.place
        ≡ record { index = 2; shards = s.shards; config = s.config })
        × (3 < s.shards → B.S3.ShardLedger.place
        ≡ record { index = 3; shards = s.shards; config = s.config })
        × ((0 < s.shards) ↔ IsSome s.zero) × ((1 < s.shards) ↔ IsSome s.one)
        × ((2 < s.shards) ↔ IsSome s.two) × ((3 < s.shards) ↔ IsSome s.three) };
}
