// A trace, read line by line up to the first fault.
ghost use Rattle.std.specs.Prelude.{◌≡◌, ◌≤◌};
ghost use Rattle.wt_trace.specs.Contract.{AreRead};
ghost use Rattle.wt_trace.specs.Trace.{line_end};
ghost use Rattle.wt_trace.specs.Trace as spec;

pub(crate) mod bytes;
pub(crate) mod digits;
pub(crate) mod header;
pub(crate) mod key;
pub(crate) mod line;
pub(crate) mod parsing;
pub(crate) mod pieces;

use crate::fault::ReplayFault;
use crate::trace::bytes::cut;
use crate::trace::key::TraceKey;
use crate::trace::line::{Line, line_of};
use std::alloc::Global;
use wt_keys::NoMemory;

pub(crate) const MOST_LINES: u64 = 1000000;

const MOST_LENGTH: usize = 64;

/// The lines up to the first fault, and that fault.
#[derive(Drop)]
pub struct Lines<K> {
    /// The lines.
    pub lines: Vec<Line<K>>,
    /// The fault of the line behind them, if it has one.
    pub verdict: Result<(), ReplayFault>,
}

// Line n, or its fault: too many lines, too long a line, no line, in this order.
#[tactic(auto, unfolding(crate::specs::Trace::checked))]
pub(crate) fn checked<K: TraceKey>(n: u64, bytes: &[u8]) -> Result<Line<K>, ReplayFault>
    ensures { result ≡ spec.checked K.read n bytes.now }
{
    if MOST_LINES < n {
        return Err(ReplayFault::TooManyLines);
    }
    if MOST_LENGTH < bytes.len() {
        return Err(ReplayFault::LineTooLong { n });
    }
    match line_of(bytes) {
        Some(line) => Ok(line),
        None => Err(ReplayFault::BadLine { n }),
    }
}

/// Reads the lines of the bytes, the first of which is line `first`.
// `show_lines` of report.rt has the same loop: it does each line before it reads the next one.
pub fn read_lines<K: TraceKey>(
    alloc: Global,
    first: u64,
    bytes: &[u8],
) -> Result<Lines<K>, NoMemory>
    requires { first ≤ line_end }
    ensures made { AreRead K.read first bytes.now result }
{
    let mut lines = Vec::new(alloc);
    let mut rest = bytes;
    let mut n = first;
    while !rest.is_empty() {
        let (line, after) = cut(rest, b'\n');
        match checked(n, line) {
            Ok(line) => lines.push(line)?,
            Err(fault) => {
                return Ok(Lines {
                    lines,
                    verdict: Err(fault),
                });
            }
        }
        rest = after;
        n += 1;
    }
    Ok(Lines {
        lines,
        verdict: Ok(()),
    })
}
