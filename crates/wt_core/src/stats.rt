// The numbers of a cache.
ghost use Rattle.std.specs.Prelude.{◌≡◌, ◌^◌};
ghost use Rattle.wt_core.specs.Sums.{AreBelow, sums_of};

/// The counts of a cache since it was opened.
#[derive(Clone, Copy, Debug, PartialEq, Eq)]
pub struct Counts {
    /// Look-ups: hits and misses.
    pub lookups: u64,
    /// Look-ups that found the key.
    pub hits: u64,
    /// Look-ups that did not.
    pub misses: u64,
    /// Loads that succeeded.
    pub loads: u64,
    /// Loads that failed.
    pub failed: u64,
    /// Entries that left as Expired or Size.
    pub evicted: u64,
}

/// The numbers of a cache: its counts since it was opened, its entries and their weight.
#[derive(Clone, Copy, Debug, PartialEq, Eq)]
pub struct Stats {
    /// Look-ups: hits and misses.
    pub lookups: u64,
    /// Look-ups that found the key.
    pub hits: u64,
    /// Look-ups that did not.
    pub misses: u64,
    /// Loads that succeeded.
    pub loads: u64,
    /// Loads that failed.
    pub failed: u64,
    /// Entries that left as Expired or Size.
    pub evicted: u64,
    /// Entries held now.
    pub entries: u64,
    /// Their weight together.
    pub weight: u64,
}

impl Counts {
    /// The counts of a new cache.
    pub const NOTHING: Counts = Counts {
        lookups: 0,
        hits: 0,
        misses: 0,
        loads: 0,
        failed: 0,
        evicted: 0,
    };
}

impl Stats {
    /// The numbers of a new cache: each is 0.
    pub const NOTHING: Stats = Stats {
        lookups: 0,
        hits: 0,
        misses: 0,
        loads: 0,
        failed: 0,
        evicted: 0,
        entries: 0,
        weight: 0,
    };

    /// Returns the sums of the numbers of two caches. O(1).
    pub fn plus(&self, other: &Stats) -> Stats
        requires { AreBelow (2 ^ 64) (sums_of self.now other.now) }
        ensures { result ≡ sums_of self.now other.now }
    {
        Stats {
            lookups: self.lookups + other.lookups,
            hits: self.hits + other.hits,
            misses: self.misses + other.misses,
            loads: self.loads + other.loads,
            failed: self.failed + other.failed,
            evicted: self.evicted + other.evicted,
            entries: self.entries + other.entries,
            weight: self.weight + other.weight,
        }
    }
}
