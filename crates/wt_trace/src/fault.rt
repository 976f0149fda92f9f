// Why a replay ends without a report of all lines.
ghost use Rattle.std.specs.Prelude.{◌≡◌, IfOk, string_bytes};
ghost use Rattle.wt_keys.specs.declared.fault.Fault.TheVariants as cache;
ghost use Rattle.wt_trace.specs.FaultLine as spec;
ghost use Rattle.wt_trace.specs.declared.fault.ReplayFault.TheVariants as fault;

use std::alloc::{AllocError, AllocFailed, Global};
use thiserror::Error;
use wt_keys::{Fault, NoMemory};

/// Why a replay ended without a report of all lines.
#[derive(Clone, Copy, Debug, PartialEq, Eq, Error)]
pub enum ReplayFault {
    /// The cache refused: an option out of its range, or no memory.
    #[error("{0}")]
    Cache(Fault),
    /// Line n isn't a line of a trace. Its report is that of the lines before it.
    #[error("line {n} is no line of a trace")]
    BadLine { n: u64 },
    /// Line n has more than 64 bytes. Its report is that of the lines before it.
    #[error("line {n} has more than 64 bytes")]
    LineTooLong { n: u64 },
    /// The trace has more than 1,000,000 lines. The report is that of the first 1,000,000.
    #[error("the trace has more than 1000000 lines")]
    TooManyLines,
    /// The reader failed. Nothing was written.
    #[error("the trace could not be read")]
    ReadFault,
    /// The writer failed, or took nothing. A prefix of the report was written.
    #[error("the report could not be written")]
    WriteFault,
    /// A thread was not let through before line n. Nothing was written.
    #[error("the run was stopped before line {n}")]
    GateShut { n: u64 },
}

impl From<NoMemory> for ReplayFault {
    ghost from_gives = { λ _ e. e ≡ fault.Cache cache.NoMemory };

    fn from(_refused: NoMemory) -> ReplayFault {
        ReplayFault::Cache(Fault::NoMemory)
    }
}

impl From<AllocError> for ReplayFault {
    ghost from_gives = { λ _ e. e ≡ fault.Cache cache.NoMemory };

    fn from(_error: AllocError) -> ReplayFault {
        ReplayFault::Cache(Fault::NoMemory)
    }
}

impl<T: Drop> From<AllocFailed<T>> for ReplayFault {
    ghost from_gives = { λ _ e. e ≡ fault.Cache cache.NoMemory };

    fn from(_failed: AllocFailed<T>) -> ReplayFault {
        ReplayFault::Cache(Fault::NoMemory)
    }
}

impl ReplayFault {
    /// Returns the fault's number, which the fault line prints.
    pub fn number(self) -> u64
        ensures { result ≡ spec.number_of self }
    {
        match self {
            ReplayFault::Cache(fault) => fault.number(),
            ReplayFault::BadLine { .. } => 11,
            ReplayFault::LineTooLong { .. } => 12,
            ReplayFault::TooManyLines => 13,
            ReplayFault::ReadFault => 14,
            ReplayFault::WriteFault => 15,
            ReplayFault::GateShut { .. } => 17,
        }
    }
}

/// Returns the exit status of a run that ended by this fault, which is 1, and the line for standard
/// error. The line is `fault <number>`, followed by ` field <name>` for an option, or ` line <n>`
/// for a line.
///
/// `NoMemory` if the line finds no memory; the status is 1 all the same.
pub fn status_and_line(alloc: Global, fault: &ReplayFault) -> Result<(u8, String), NoMemory>
    ensures { IfOk result (λ r. (r.0 ≡ 1) × (string_bytes r.1 ≡ spec.fault_line fault.now)) }
{
    let number = fault.number();
    let line = match *fault {
        ReplayFault::Cache(Fault::BadConfig { field }) => {
            format!(in alloc; "fault {number} field {}\n", field.name())?
        }
        ReplayFault::BadLine { n } => format!(in alloc; "fault {number} line {n}\n")?,
        ReplayFault::LineTooLong { n } => format!(in alloc; "fault {number} line {n}\n")?,
        ReplayFault::GateShut { n } => format!(in alloc; "fault {number} line {n}\n")?,
        _ => format!(in alloc; "fault {number}\n")?,
    };
    Ok((1, line))
}
