// The options of a run.
ghost use Rattle.std.specs.Prelude.{◌≡◌, ◌<◌, ◌≤◌, ◌^◌, ◌==◌, ◌||◌, IsTrue, None};
ghost use Rattle.wt_trace.specs.Contract.{IsChecked};
ghost use Rattle.wt_trace.specs.Options.{is_outside, is_shard_count};

use crate::fault::ReplayFault;
use wt_core::Config;
use wt_keys::{Fault, Field};

/// The most that all entries of a shard may weigh together: 2^48.
pub const MOST_WEIGHT: u64 = 281474976710656;

/// The most threads of a replay shard by shard.
pub const MOST_THREADS: u64 = 64;

/// The options, each as it was given. Durations are in milliseconds; `None` stands for the default.
#[derive(Clone, Copy, Debug, PartialEq, Eq)]
pub struct Options {
    /// The number of shards: 1, 2 or 4.
    pub shards: u64,
    /// How many entries a shard may hold: 1 to 65,536.
    pub entries: u64,
    /// How many of them its window may hold: 1 to `entries`. By default a hundredth of them, and with
    /// `adaptive` a tenth at first.
    pub window: Option<u64>,
    /// How much the entries of a shard may weigh together: 1 to 2^48.
    pub weight: u64,
    /// The modulus m of weights, 1 to 1,000,000: a value of key k weighs 1 + k mod m.
    pub modulus: u64,
    /// An entry expires so long after it was written: 1 up.
    pub write: Option<u64>,
    /// An entry expires so long after it was used: 1 up.
    pub access: Option<u64>,
    /// An entry is loaded again so long after it was written: 1 up.
    pub refresh: Option<u64>,
    /// The load of a key whose word this divides fails: 1 up.
    pub fail_mod: Option<u64>,
    /// How many loads a shard may have open: 1 to 4,096.
    pub flights: u64,
    /// How many steps a shard may record, more than `flights` and up to 65,536. By default 64, or
    /// `flights` and one.
    pub ring: Option<u64>,
    /// The number of threads of a replay shard by shard: 0 to 64, where 0 stands for one without
    /// threads of its own.
    pub threads: u64,
    /// The number of threads of a replay turn by turn: 0 to 64, where 0 stands for a replay that
    /// isn't. Not with `threads` above 0.
    pub turn: u64,
    /// The number of threads that run loads beside those of a replay turn by turn: 0 to 64, and 0
    /// where `turn` is.
    pub workers: u64,
    /// 1 if the window of each shard follows the stream of its look-ups, else 0. 1 only from 64
    /// entries on, and not with `window`.
    pub adaptive: u64,
}

impl Default for Options {
    ghost use Rattle.wt_trace.specs.Options.{default_options};

    ghost is_default = { λ o. o ≡ default_options };

    fn default() -> Options {
        Options {
            shards: 1,
            entries: 1024,
            window: None,
            weight: MOST_WEIGHT,
            modulus: 1,
            write: None,
            access: None,
            refresh: None,
            fail_mod: None,
            flights: 32,
            ring: None,
            threads: 0,
            turn: 0,
            workers: 0,
            adaptive: 0,
        }
    }
}

// Whether a number is outside a range.
fn is_outside(low: u64, high: u64, n: u64) -> bool
    ensures { result ≡ is_outside low high n }
{
    n < low || high < n
}

// Returns whether `n` is a number of shards that there can be.
fn is_shard_count(n: u64) -> bool
    ensures { result ≡ is_shard_count n }
{
    n == 1 || n == 2 || n == 4
}

impl Options {
    ghost use Rattle.wt_trace.specs.Options.{option_fault, later_fault, window_of, default_window, can_adapt, ring_of, config_of};

    // The window, its default if none was given.
    fn window(&self) -> u64
        requires { self.now.entries < 2 ^ 32 }
        ensures { result ≡ window_of self.now }
    {
        self.window.unwrap_or(self.default_window())
    }

    // The window where none was given.
    fn default_window(&self) -> u64
        requires { self.now.entries < 2 ^ 32 }
        ensures { result ≡ default_window self.now }
    {
        if 0 < self.adaptive {
            (self.entries * 10 / 100).max(1)
        } else {
            (self.entries / 100).max(1)
        }
    }

    // Whether the window may follow the stream.
    fn can_adapt(&self) -> bool
        ensures { result ≡ can_adapt self.now }
    {
        64 <= self.entries && self.window.is_none()
    }

    // The ring, its default if none was given.
    fn ring(&self) -> u64
        requires { self.now.flights < 2 ^ 63 }
        ensures { result ≡ ring_of self.now }
    {
        self.ring.unwrap_or((self.flights + 1).max(64))
    }

    /// Returns the first option that is out of its range, in the order of the fields. Takes no
    /// memory.
    pub fn fault(&self) -> Option<Field>
        ensures { result ≡ option_fault self.now }
    {
        if !is_shard_count(self.shards) {
            return Some(Field::Shards);
        }
        if is_outside(1, 65536, self.entries) {
            return Some(Field::Entries);
        }
        if is_outside(1, self.entries, self.window()) {
            return Some(Field::Window);
        }
        if is_outside(1, MOST_WEIGHT, self.weight) {
            return Some(Field::Bound);
        }
        if is_outside(1, 1000000, self.modulus) {
            return Some(Field::Modulus);
        }
        if self.write == Some(0) {
            return Some(Field::AfterWrite);
        }
        if self.access == Some(0) {
            return Some(Field::AfterAccess);
        }
        if self.refresh == Some(0) {
            return Some(Field::Refresh);
        }
        if self.fail_mod == Some(0) {
            return Some(Field::FailMod);
        }
        self.later_fault()
    }

    // The same, of the fields from `flights` on.
    fn later_fault(&self) -> Option<Field>
        ensures { result ≡ later_fault self.now }
    {
        if is_outside(1, 4096, self.flights) {
            return Some(Field::Flights);
        }
        if is_outside(self.flights + 1, 65536, self.ring()) {
            return Some(Field::Ring);
        }
        if is_outside(0, MOST_THREADS, self.threads) {
            return Some(Field::Threads);
        }
        if is_outside(0, MOST_THREADS, self.turn) || (0 < self.turn && 0 < self.threads) {
            return Some(Field::Turn);
        }
        if is_outside(0, MOST_THREADS, self.workers) || (0 < self.workers && !(0 < self.turn)) {
            return Some(Field::Workers);
        }
        if is_outside(0, 1, self.adaptive) || (0 < self.adaptive && !self.can_adapt()) {
            return Some(Field::Adaptive);
        }
        None
    }

    /// Checks each option against its range, in the order of the fields, and returns `BadConfig` of
    /// the first that is out of it. Takes no memory.
    pub fn check(&self) -> Result<(), ReplayFault>
        ensures { IsChecked self.now result }
    {
        match self.fault() {
            Some(field) => Err(ReplayFault::Cache(Fault::BadConfig { field })),
            None => Ok(()),
        }
    }

    /// Returns the configuration of each shard, if each option is in its range. Takes no memory.
    pub fn config(&self) -> Config
        requires { option_fault self.now ≡ None }
        ensures { result ≡ config_of self.now }
    {
        Config {
            entries: self.entries as u32,
            window: self.window() as u32,
            bound: self.weight,
            after_write: self.write,
            after_access: self.access,
            refresh: self.refresh,
            flights: self.flights as u32,
            ring: self.ring() as u32,
        }
    }

    /// Returns the number of shards, if each option is in its range: 1, 2 or 4.
    pub fn shards(&self) -> usize
        requires { option_fault self.now ≡ None }
        ensures value { result ≡ self.now.shards }
        ensures some { IsTrue (result == 1 || (result == 2 || result == 4)) }
        ensures few { result ≤ 4 }
    {
        self.shards as usize
    }
}
