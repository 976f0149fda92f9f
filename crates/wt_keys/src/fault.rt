// The faults of all calls, each with its number.
ghost use Rattle.std.specs.Prelude.{◌≡◌};
ghost use Rattle.wt_keys.specs.declared.fault.Fault.TheVariants as fault;

use std::alloc::{AllocError, AllocFailed};
use thiserror::Error;

/// An allocation failed. The call that made it changed nothing, unless its documentation has an
/// exception.
#[derive(Clone, Copy, Debug, PartialEq, Eq, Error)]
#[error("no memory was left")]
pub struct NoMemory;

impl From<AllocError> for NoMemory {
    fn from(_error: AllocError) -> NoMemory {
        NoMemory
    }
}

impl<T: Drop> From<AllocFailed<T>> for NoMemory {
    fn from(_failed: AllocFailed<T>) -> NoMemory {
        NoMemory
    }
}

/// A setting of a cache or of the program, which may be out of its range.
#[derive(Clone, Copy, Debug, PartialEq, Eq)]
pub enum Field {
    /// The number of shards.
    Shards,
    /// How many entries a shard may hold.
    Entries,
    /// How many of them its window may hold.
    Window,
    /// How much the entries of a shard may weigh together.
    Bound,
    /// The modulus from which the program makes weights.
    Modulus,
    /// After how many milliseconds an entry expires that isn't written.
    AfterWrite,
    /// After how many milliseconds an entry expires that isn't used.
    AfterAccess,
    /// After how many milliseconds an entry is loaded again.
    Refresh,
    /// The modulus from which the program makes loads fail.
    FailMod,
    /// How many loads a shard may have open.
    Flights,
    /// How many steps a shard may record before its copy catches up.
    Ring,
    /// The number of threads that the program replays on, shard by shard.
    Threads,
    /// The number of threads that the program replays on, turn by turn.
    Turn,
    /// The number of threads that run loads.
    Workers,
    /// How many loads may wait in the line.
    Line,
    /// Whether the window follows the stream.
    Adaptive,
}

impl Field {
    ghost use Rattle.wt_keys.specs.Faults.{field_name};

    /// Returns the field's name, as the program's option and its fault line write it.
    pub fn name(self) -> &'static str
        ensures { result.now ≡ field_name self }
    {
        match self {
            Field::Shards => "shards",
            Field::Entries => "entries",
            Field::Window => "window",
            Field::Bound => "weight",
            Field::Modulus => "mod",
            Field::AfterWrite => "write",
            Field::AfterAccess => "access",
            Field::Refresh => "refresh",
            Field::FailMod => "fail-mod",
            Field::Flights => "flights",
            Field::Ring => "ring",
            Field::Threads => "threads",
            Field::Turn => "turn",
            Field::Workers => "workers",
            Field::Line => "line",
            Field::Adaptive => "adaptive",
        }
    }
}

/// Why a call of the cache was refused. The numbers 11 to 15 and 17 are the program's own.
#[derive(Clone, Copy, Debug, PartialEq, Eq, Error)]
pub enum Fault {
    /// Memory or a share of a value was refused. The same call may succeed later.
    #[error("no memory was left for the call")]
    NoMemory,
    /// A setting is out of its range. Make the configuration anew.
    #[error("the setting `{name}` is out of its range", name = .field.name())]
    BadConfig { field: Field },
    /// The value weighs more than all entries may together, so it can't be stored.
    #[error("the value weighs {weight}, and all entries together may weigh {bound}")]
    TooHeavy { weight: u32, bound: u64 },
    /// The key isn't there, and no further load may be opened until one has landed.
    #[error("{limit} loads are open already, which is the limit")]
    TooManyFlights { limit: u32 },
    /// The cache made 2^60 steps and makes no further one. Make a new one.
    #[error("the cache has made all of its 2^60 steps")]
    StepsSpent,
    /// The load that the caller waited for, or made, failed with this code of the loader's.
    #[error("the load failed with code {code}")]
    LoadFailed { code: u32 },
    /// The load that the caller waited for was given up. A further call may load again.
    #[error("the load was abandoned before it ended")]
    Abandoned,
    /// The outcome of a load doesn't answer the key that was asked for.
    #[error("the outcome of the load doesn't answer the key")]
    Mixed,
    /// The line of loads is full. Load in the caller, or try again.
    #[error("the line of loads is full")]
    LineFull,
    /// The line of loads was closed and takes no further one. Load in the caller.
    #[error("the line of loads is closed")]
    LineClosed,
    /// A pass of this shard wasn't given back, so that its steps are unknown.
    #[error("the passes handed back don't account for each step of shard {shard}")]
    PassMissing { shard: u32 },
    /// All passes were given out, and no further one can be.
    #[error("all of the 65535 passes were given out")]
    PassesSpent,
}

impl Fault {
    ghost use Rattle.wt_keys.specs.Faults.{fault_number};

    /// Returns the fault's number, which the program prints and which never changes its meaning.
    pub fn number(self) -> u64
        ensures { result ≡ fault_number self }
    {
        match self {
            Fault::NoMemory => 1,
            Fault::BadConfig { .. } => 2,
            Fault::TooHeavy { .. } => 3,
            Fault::TooManyFlights { .. } => 4,
            Fault::StepsSpent => 5,
            Fault::LoadFailed { .. } => 6,
            Fault::Abandoned => 7,
            Fault::Mixed => 8,
            Fault::LineFull => 9,
            Fault::LineClosed => 10,
            Fault::PassMissing { .. } => 16,
            Fault::PassesSpent => 18,
        }
    }
}

impl From<NoMemory> for Fault {
    ghost from_gives = { λ _ f. f ≡ fault.NoMemory };

    fn from(_refused: NoMemory) -> Fault {
        Fault::NoMemory
    }
}

impl From<AllocError> for Fault {
    ghost from_gives = { λ _ f. f ≡ fault.NoMemory };

    fn from(_error: AllocError) -> Fault {
        Fault::NoMemory
    }
}

impl<T: Drop> From<AllocFailed<T>> for Fault {
    ghost from_gives = { λ _ f. f ≡ fault.NoMemory };

    fn from(_failed: AllocFailed<T>) -> Fault {
        Fault::NoMemory
    }
}
