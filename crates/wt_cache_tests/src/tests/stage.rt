// Values and a loader of several kinds, which all tests of the cache use.
ghost use Rattle.std.specs.Prelude.{◌≡◌};

use std::alloc::Global;
use std::sync::Arc;
use std::sync::atomic::{AtomicU64, Ordering};
use std::thread;
use wt_cache::{Loader, LoadingCache};
use wt_core::{Config, Measure, Weighs};
use wt_keys::{Answers, NoMemory, Share};
use wt_shards::{Of, Shards};

/// A value that knows its key. The loader's are of line 0.
#[derive(Clone, Copy, Debug, PartialEq, Eq)]
pub struct Version {
    pub key: u64,
    pub line: u64,
    pub weight: u32,
}

/// A version that weighs 1.
pub fn light(key: u64, line: u64) -> Version
    ensures { result.key ≡ key }
{
    let weight = 1;
    Version { key, line, weight }
}

impl Share for Version {
    fn share(&self) -> Result<Version, NoMemory> {
        Ok(*self)
    }
}

impl Weighs for Version {
    ghost measure = { λ v. record { weight = v.weight; life = 0 } };

    fn measure(&self) -> Measure {
        Measure::lasting(self.weight)
    }
}

impl Answers<u64> for Version {
    ghost use Rattle.std.specs.Prelude.{◌==◌};

    ghost answers = { λ v key. v.key == key };

    fn answers(&self, key: &u64) -> bool {
        self.key == *key
    }
}

/// The messages of threads to each other.
#[derive(Drop)]
pub struct Marks {
    /// How many loads were begun.
    pub begun: AtomicU64,
    /// How many held loads may end.
    pub released: AtomicU64,
}

/// How a loader answers.
#[derive(Clone, Copy, Debug, PartialEq, Eq)]
pub enum Way {
    /// Each key at once.
    Plain,
    /// The key 1 by an error of code 300, the others at once.
    FailsOne,
    /// The key 1 once it is released, the others at once.
    HoldsOne,
    /// Each key once two loads have begun.
    InPairs,
    /// Each key by an error whose code is the key, once as many loads are released as were begun.
    FailsByKey,
    /// Every fifth load by an error of the greatest code, the others at once.
    FailsFifth,
    /// Each key at once, by a value of this weight.
    Weighs(u32),
}

/// A loader of versions.
#[derive(Drop)]
pub struct Rules {
    pub way: Way,
    pub marks: Arc<Marks, Global>,
}

/// Returns whether the mark rises to `many` within 10,000,000 turns.
pub fn rises(mark: &AtomicU64, many: u64) -> bool {
    for _ in 0..10_000_000u64 {
        if mark.load(Ordering::SeqCst) >= many {
            return true;
        }
        thread::yield_now();
    }
    false
}

impl Loader<u64, Version> for Rules {
    fn load(&self, key: &u64) -> Result<Version, u32> {
        let before = self.marks.begun.fetch_add(1, Ordering::SeqCst);
        let ends = match self.way {
            Way::Plain => true,
            Way::FailsOne if *key == 1 => return Err(300),
            Way::FailsByKey if rises(&self.marks.released, before.saturating_add(1)) => {
                return Err(u32::try_from(*key).unwrap_or(99));
            }
            Way::FailsByKey => false,
            Way::FailsFifth if before % 5 == 4 => return Err(u32::MAX),
            Way::HoldsOne if *key == 1 => rises(&self.marks.released, 1),
            Way::InPairs => rises(&self.marks.begun, 2),
            _ => true,
        };
        if !ends {
            return Err(99);
        }
        let (key, line) = (*key, 0);
        let weight = match self.way {
            Way::Weighs(weight) => weight,
            _ => 1,
        };
        Ok(Version { key, line, weight })
    }
}

/// Makes marks that say nothing yet.
pub fn new_marks(alloc: Global) -> Result<Arc<Marks, Global>, NoMemory> {
    let begun = AtomicU64::new(0);
    let released = AtomicU64::new(0);
    Ok(Arc::new(alloc, Marks { begun, released })?)
}

/// Shards of versions.
pub type Plain<N> = Shards<u64, Version, Of<N>>;

/// A cache of versions, by the names of its ledgers.
pub type Cache<N> = LoadingCache<u64, Version, Rules, Of<N>>;

/// The configuration of each shard: refresh after 50 ms.
pub fn config(entries: u32, flights: u32, after_write: Option<u64>) -> Config {
    Config {
        entries,
        window: 1,
        bound: 1000,
        after_write,
        after_access: None,
        refresh: Some(50),
        flights,
        ring: 4097,
    }
}
