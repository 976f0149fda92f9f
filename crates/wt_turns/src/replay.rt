// A replay turn by turn, from a reader to a writer.
ghost use Rattle.std.specs.Prelude.{◌<◌, ◌≤◌, ℕ, List, OnOk, false, true};
ghost use Rattle.wt_turns.specs.ByTurn.{IsLetThrough, Turned};
ghost use Rattle.wt_trace.specs.Contract.{IsRun};
ghost use Rattle.wt_trace.specs.Replayed.{Gave};

use crate::by_turn::sums_by_turn;
use std::alloc::Global;
use std::io::{Read, Write};
use std::sync::Wait;
use std::thread::Threads;
use wt_keys::Fault;
use wt_trace::{
    Gate, MOST_BYTES, Options, ReplayFault, Tallied, read_up_to, summary_text, write_out,
};

/// Replays the trace turn by turn on `threads` threads with one shared cache, each with a pass of
/// its own: line n is done by thread (n - 1) modulo `threads`. Writes one line, the summary, whose
/// hits and misses are the look-ups.
///
/// A `G` is a get that loads a missing key, an `L` a look-up, a `P` a store and a `D` a removal. An
/// `F` is a forget, a `C` a clean and an `X` a clear. Loads that fail, values too heavy and loads
/// without a place are passed over. With `options.workers` above 0, that many threads run the
/// loads, which wait in a line of 64.
///
/// With `options.adaptive`, the window of a key's shard follows each `G` and `L`, by up to four
/// slides. If one is refused, its fault ends the run at that line.
///
/// Faults come in this order. An option out of its range: nothing was read or written. `ReadFault`,
/// exactly if the reader failed, and `NoMemory`. The fault of the first faulty line; a line of
/// letter S or E is faulty. `GateShut` of a line before which the gate was shut. The fault of the
/// cache that ended the run at a line. `WriteFault`, exactly if the writer failed or took nothing:
/// a prefix of the summary was written. After any other fault nothing was written.
///
/// Not promised: the order in which two threads do their lines, and so which of them hit; that the
/// call returns.
pub fn replay_by_turn<H: Threads + Wait + Sync, R: Read, W: Write, G: Gate>(
    rt: &H,
    alloc: Global,
    reader: &mut Tallied<R>,
    writer: &mut Tallied<W>,
    options: &Options,
    threads: u64,
    gate: &G,
) -> Result<(), ReplayFault>
    requires { (0 < threads) × (threads ≤ 64) }
    ensures made { IsRun Turned options.now (λ n. G.answers gate.now n false) R.remaining W.contents
        reader.old reader.new writer.old writer.new result }
    ensures asked { OnOk result ((bytes : List ℕ)
        × Gave (R.remaining reader.old.inner) (R.remaining reader.new.inner) bytes
        × IsLetThrough (λ n. G.answers gate.now n true) bytes) }
{
    if let Some(field) = options.fault() {
        return Err(ReplayFault::Cache(Fault::BadConfig { field }));
    }
    let bytes = read_up_to(alloc, reader, MOST_BYTES)?;
    let sums = sums_by_turn(rt, alloc, options, bytes.as_slice(), threads as usize, gate)?;
    let text = summary_text(alloc, &sums)?;
    write_out(writer, text.as_slice())
}
