// Counts of a caller's results, for an operator: hits, loads, entries that left, faults.
ghost use Rattle.std.specs.Prelude.{◌≡◌};
ghost use Rattle.wt_cache.specs.Tally as spec;
ghost use Rattle.wt_cache.specs.Tally.{tally_after, tally_sum, tally_of_fault, tally_of_left};

use crate::got::{Got, How};
use std::fmt;
use wt_core::{Cause, Notice, Reply};
use wt_keys::Fault;
use wt_shards::{Done, Sought};

/// Counts of the results of one caller's calls. The tallies of several callers add up.
///
/// The caller feeds it with the results of its calls, and nothing else changes it. Each count stays
/// at 2^64 - 1. Look-ups are `hits` and `misses` together. Entries that left by the cache's own
/// rules are `expired` and `size` together.
#[derive(Clone, Copy, Debug, PartialEq, Eq)]
pub struct Tally {
    /// Look-ups that found a value, due ones included.
    pub hits: u64,
    /// Look-ups that found none. A get that returns a fault isn't counted as one.
    pub misses: u64,
    /// Misses that joined the load of another caller.
    pub joins: u64,
    /// Hits on a due value, each of which opened a load of it.
    pub refreshes: u64,
    /// Loads that brought a value: landings, and gets that returned their own load's value.
    pub loads: u64,
    /// Landings with a value that wasn't stored, since its key was changed meanwhile, it was too
    /// heavy, or its share was refused. A get doesn't report them.
    pub loose: u64,
    /// Landings with an error, and gets that returned the fault of a load.
    pub failed: u64,
    /// Entries that a caller removed.
    pub explicit: u64,
    /// Entries that gave way to a newer value of their key.
    pub replaced: u64,
    /// Entries that were too old.
    pub expired: u64,
    /// Entries for which there was no room, or that weighed too much.
    pub size: u64,
    /// Calls that were refused for memory.
    pub no_memory: u64,
    /// Puts of a value above the bound.
    pub too_heavy: u64,
    /// Calls that found the greatest number of loads open.
    pub too_many_flights: u64,
    /// Calls that were refused for another reason.
    pub other: u64,
}

/// The result of a call, as a tally counts it.
pub trait Countable {
    ghost use Rattle.wt_cache.specs.declared.tally.Tally.{Tally};

    ghost tally: { Self → Tally };

    /// Returns a tally of this alone. Takes no memory. O(1).
    fn tally(&self) -> Tally
        ensures { result ≡ tally self.now };
}

impl Tally {
    /// A tally that has counted nothing.
    pub const NOTHING: Tally = Tally {
        hits: 0,
        misses: 0,
        joins: 0,
        refreshes: 0,
        loads: 0,
        loose: 0,
        failed: 0,
        explicit: 0,
        replaced: 0,
        expired: 0,
        size: 0,
        no_memory: 0,
        too_heavy: 0,
        too_many_flights: 0,
        other: 0,
    };

    /// Counts the result of a call, and the entries that left by it.
    ///
    /// `left` is the list of its notices, which the caller empties before each call; a notice that
    /// is passed twice is counted twice. Never fails, takes no memory and no lock. O(notices).
    ///
    /// In use: `uses::callers::lend`.
    pub fn count<T: Countable, K, V>(&mut self, done: &Result<T, Fault>, left: &[Notice<K, V>])
        ensures { self.new ≡ tally_after T.tally done.now left.now self.old }
    {
        let met = match done {
            Ok(met) => met.tally(),
            Err(fault) => tally_of(*fault),
        };
        *self = self.plus(&met).plus(&left_by_cause(left));
    }

    /// Returns both tallies together. O(1).
    pub fn plus(&self, other: &Tally) -> Tally
        ensures { result ≡ tally_sum self.now other.now }
    {
        Tally {
            hits: self.hits.saturating_add(other.hits),
            misses: self.misses.saturating_add(other.misses),
            joins: self.joins.saturating_add(other.joins),
            refreshes: self.refreshes.saturating_add(other.refreshes),
            loads: self.loads.saturating_add(other.loads),
            loose: self.loose.saturating_add(other.loose),
            failed: self.failed.saturating_add(other.failed),
            explicit: self.explicit.saturating_add(other.explicit),
            replaced: self.replaced.saturating_add(other.replaced),
            expired: self.expired.saturating_add(other.expired),
            size: self.size.saturating_add(other.size),
            no_memory: self.no_memory.saturating_add(other.no_memory),
            too_heavy: self.too_heavy.saturating_add(other.too_heavy),
            too_many_flights: self.too_many_flights.saturating_add(other.too_many_flights),
            other: self.other.saturating_add(other.other),
        }
    }
}

/// A line of the numbers, each behind its name.
impl fmt::Display for Tally {
    fn fmt<W: fmt::Write>(&self, f: &mut fmt::Formatter<W>) -> fmt::Result {
        write!(f, "hits {} misses {}", self.hits, self.misses)?;
        write!(f, " joins {} refreshes {}", self.joins, self.refreshes)?;
        write!(
            f,
            " loads {} loose {} failed {}",
            self.loads, self.loose, self.failed
        )?;
        write!(f, " explicit {} replaced {}", self.explicit, self.replaced)?;
        write!(f, " expired {} size {}", self.expired, self.size)?;
        write!(
            f,
            " no-memory {} too-heavy {}",
            self.no_memory, self.too_heavy
        )?;
        write!(
            f,
            " too-many-flights {} other {}",
            self.too_many_flights, self.other
        )
    }
}

// The counts that one call adds, by its result.
const HIT: Tally = Tally {
    hits: 1,
    ..Tally::NOTHING
};

const REFRESH: Tally = Tally {
    refreshes: 1,
    ..HIT
};

const MISS: Tally = Tally {
    misses: 1,
    ..Tally::NOTHING
};

const JOIN: Tally = Tally { joins: 1, ..MISS };

const LOADED_MISS: Tally = Tally { loads: 1, ..MISS };

const LOAD: Tally = Tally {
    loads: 1,
    ..Tally::NOTHING
};

const LOOSE_LOAD: Tally = Tally { loose: 1, ..LOAD };

const FAILED_LOAD: Tally = Tally {
    failed: 1,
    ..Tally::NOTHING
};

// A tally of a fault alone.
fn tally_of(fault: Fault) -> Tally
    ensures { result ≡ tally_of_fault fault }
{
    let mut tally = Tally::NOTHING;
    match fault {
        Fault::NoMemory => tally.no_memory = 1,
        Fault::TooHeavy { .. } => tally.too_heavy = 1,
        Fault::TooManyFlights { .. } => tally.too_many_flights = 1,
        Fault::LoadFailed { .. } | Fault::Abandoned => tally.failed = 1,
        _ => tally.other = 1,
    }
    tally
}

// A tally of the entries that left, each by its cause.
fn left_by_cause<K, V>(left: &[Notice<K, V>]) -> Tally
    ensures { result ≡ tally_of_left left.now }
{
    Tally {
        explicit: left_as(Cause::Explicit, left),
        replaced: left_as(Cause::Replaced, left),
        expired: left_as(Cause::Expired, left),
        size: left_as(Cause::Size, left),
        ..Tally::NOTHING
    }
}

// How many entries left for this cause.
fn left_as<K, V>(cause: Cause, left: &[Notice<K, V>]) -> u64
    ensures { result ≡ spec.left_as cause left.now }
{
    left.iter().filter(|it| is_same(cause, it.cause)).count() as u64
}

// Whether two causes are the same.
fn is_same(a: Cause, b: Cause) -> bool
    ensures { result ≡ spec.is_same a b }
{
    match a {
        Cause::Explicit => matches!(b, Cause::Explicit),
        Cause::Replaced => matches!(b, Cause::Replaced),
        Cause::Expired => matches!(b, Cause::Expired),
        Cause::Size => matches!(b, Cause::Size),
    }
}

impl<V> Countable for Reply<V> {
    ghost use Rattle.wt_cache.specs.Tally.{tally_of_reply};

    ghost tally = { tally_of_reply };

    fn tally(&self) -> Tally {
        match self {
            Reply::Hit(_) => HIT,
            Reply::HitLead(_, _) => REFRESH,
            Reply::Absent | Reply::Lead(_) => MISS,
            Reply::Join(_) => JOIN,
            Reply::Kept(_) => LOAD,
            Reply::Loose(_) => LOOSE_LOAD,
            Reply::Failed(_) => FAILED_LOAD,
            _ => Tally::NOTHING,
        }
    }
}

impl<K, V> Countable for Sought<K, V> {
    ghost use Rattle.wt_shards.specs.Sought.{reply_of};
    ghost use Rattle.wt_cache.specs.Tally.{tally_of_reply};

    ghost tally = { λ sought. tally_of_reply (reply_of sought) };

    fn tally(&self) -> Tally {
        match self {
            Sought::Hit(_) => HIT,
            Sought::HitLead(_, _, _) => REFRESH,
            Sought::Join(_) => JOIN,
            Sought::Lead(_, _) => MISS,
        }
    }
}

/// A read that found a value counts as a hit. One that found none isn't counted: the `get` that
/// follows it counts the miss.
impl<V> Countable for Option<V> {
    ghost use Rattle.wt_cache.specs.Tally.{tally_of_found};

    ghost tally = { tally_of_found };

    fn tally(&self) -> Tally {
        match self {
            Some(_) => HIT,
            None => Tally::NOTHING,
        }
    }
}

/// Of a put, and of a sweep of all shards, only the entries that left are counted.
impl Countable for () {
    ghost use Rattle.wt_cache.specs.Tally.{no_tally};

    ghost tally = { λ _. no_tally };

    fn tally(&self) -> Tally {
        Tally::NOTHING
    }
}

/// Of a removal, and of a forget, only the entries that left are counted.
impl Countable for bool {
    ghost use Rattle.wt_cache.specs.Tally.{no_tally};

    ghost tally = { λ _. no_tally };

    fn tally(&self) -> Tally {
        Tally::NOTHING
    }
}

/// A step counts as its reply.
impl<T: Countable> Countable for Done<T> {
    ghost tally = { λ done. T.tally done.reply };

    fn tally(&self) -> Tally {
        self.reply.tally()
    }
}

/// A get counts by how its value was got.
impl<V> Countable for Got<V> {
    ghost use Rattle.wt_cache.specs.Tally.{tally_of_how};

    ghost tally = { λ got. tally_of_how got.how };

    fn tally(&self) -> Tally {
        match self.how {
            How::Hit => HIT,
            How::Loaded => LOADED_MISS,
            How::Joined => JOIN,
            How::Refreshed => REFRESH,
        }
    }
}
