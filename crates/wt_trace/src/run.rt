// Replays a trace that a reader gives, and writes the report to a writer.
ghost use Rattle.std.specs.Prelude.{◌≡◌, ◌+◌, ◌<◌, ◌≤◌, ◌⊎◌, IfErr, true, false};
ghost use Rattle.wt_trace.specs.Contract.{IsGiven, IsRun, IsWritten};
ghost use Rattle.wt_trace.specs.Replayed.{Replayed, Rises, LetThrough, is_config_fault};
ghost use Rattle.wt_keys.specs.declared.fault.Fault.TheVariants as cache;
ghost use Rattle.wt_trace.specs.declared.fault.ReplayFault.TheVariants as fault;

use crate::fault::ReplayFault;
use crate::options::Options;
use crate::report::on_threads::report_by_shard;
use crate::report::report;
use crate::report::texts::Texts;
use crate::shard::gate::Gate;
use crate::shard::job::Job;
use crate::tallied::Tallied;
use std::alloc::Global;
use std::io::{Read, Write};
use std::thread::Threads;
use wt_keys::Fault;

/// The most bytes that are read: no trace of 1,000,000 lines of 64 bytes has more, each with its
/// LF, so that one byte more shows a fault.
pub const MOST_BYTES: usize = 65_000_001;

/// Returns all that the reader gives, or its first bytes up to a limit, which takes memory for
/// them.
///
/// `ReadFault` exactly if the reader failed; `NoMemory`, after which the bytes that were read are
/// lost. The reader is asked at most once for each byte of the limit, and once more.
pub fn read_up_to<R: Read>(
    alloc: Global,
    reader: &mut Tallied<R>,
    most: usize,
) -> Result<Vec<u8>, ReplayFault>
    ensures given { IsGiven most R.remaining reader.old reader.new result }
    ensures turns { reader.new.reads ≤ reader.old.reads + most + 1 }
    ensures faults { IfErr result (λ e. (e ≡ fault.Cache cache.NoMemory) ⊎ (e ≡ fault.ReadFault)) }
    ensures kind { IfErr result (λ e. is_config_fault e ≡ false) }
    ensures failed { Rises reader.old.failures reader.new.failures result fault.ReadFault }
{
    let mut bytes = Vec::new(alloc);
    let mut part = [0u8; 262144];
    while bytes.len() < most {
        let room = part.len().min(most - bytes.len());
        match reader.read(&mut part[..room]) {
            Ok(0) => return Ok(bytes),
            Ok(n) => {
                if bytes.extend_from_slice(&part[..n]).is_err() {
                    return Err(ReplayFault::Cache(Fault::NoMemory));
                }
            }
            Err(_) => return Err(ReplayFault::ReadFault),
        }
    }
    Ok(bytes)
}

/// Writes all of the bytes. Takes no memory.
///
/// `WriteFault` exactly if the writer failed or took nothing: a prefix of the bytes was written.
pub fn write_out<W: Write>(writer: &mut Tallied<W>, bytes: &[u8]) -> Result<(), ReplayFault>
    ensures made { IsWritten W.contents writer.old writer.new bytes.now result }
{
    let mut rest = bytes;
    while !rest.is_empty() {
        match writer.write(rest) {
            Ok(0) | Err(_) => return Err(ReplayFault::WriteFault),
            Ok(n) => rest = rest.split_at(n).1,
        }
    }
    Ok(())
}

// Writes all pieces of a text, one after another, as `write_out` does.
fn write_pieces<W: Write>(writer: &mut Tallied<W>, text: &Texts) -> Result<(), ReplayFault>
    ensures { IsWritten W.contents writer.old writer.new text.now result }
{
    let mut rest = text.pieces();
    while let Some((piece, after)) = rest.split_first() {
        write_out(writer, piece.as_slice())?;
        rest = after;
    }
    Ok(())
}

/// Replays the trace that a reader gives, and writes the report.
///
/// Reads until the reader's end, its failure or 65,000,001 bytes, and makes the whole report before
/// it writes. Faults come in this order. An option out of its range: nothing was read or written.
/// `ReadFault`, exactly if the reader failed, and `NoMemory`: nothing was written. `WriteFault`,
/// exactly if the writer failed or took nothing: a prefix of the report was written. The fault of
/// the first faulty line: the report of the lines before it was written. Takes memory for the
/// bytes, the shards and the report.
pub fn replay<R: Read, W: Write>(
    alloc: Global,
    reader: &mut Tallied<R>,
    writer: &mut Tallied<W>,
    options: &Options,
) -> Result<(), ReplayFault>
    ensures made { IsRun (Replayed options.now) options.now (λ _. ⊥)
        R.remaining W.contents reader.old reader.new writer.old writer.new result }
{
    if let Some(field) = options.fault() {
        return Err(ReplayFault::Cache(Fault::BadConfig { field }));
    }
    let bytes = read_up_to(alloc, reader, MOST_BYTES)?;
    let (text, verdict) = report(alloc, bytes.as_slice(), options)?;
    write_out(writer, text.as_slice())?;
    verdict
}

/// Replays as `replay` does, with `threads` threads. Thread t runs the lines of the shards whose
/// number modulo `threads` is t, each shard's lines in order, and asks the gate before each of
/// them.
///
/// A line that the gate doesn't let through ends the run with `GateShut` of such a line, after all
/// threads have ended; nothing was written. If several threads fail, the fault is that of the least
/// shard. Takes memory as `replay` does, and for the lines, the shards' answers and the threads.
/// Not promised: that the threads run at the same time. If one can't be made, its lines are run
/// after those of another.
pub fn replay_by_shard<H: Threads + Sync, R: Read, W: Write, G: Gate>(
    rt: &H,
    alloc: Global,
    reader: &mut Tallied<R>,
    writer: &mut Tallied<W>,
    options: &Options,
    threads: u64,
    gate: &G,
) -> Result<(), ReplayFault>
    requires { (0 < threads) × (threads ≤ 64) }
    ensures made { IsRun (Replayed options.now) options.now (λ n. G.answers gate.now n false)
        R.remaining W.contents reader.old reader.new writer.old writer.new result }
    ensures asked { LetThrough options.now (λ n. G.answers gate.now n true)
        (R.remaining reader.old.inner) (R.remaining reader.new.inner) result }
{
    if let Some(field) = options.fault() {
        return Err(ReplayFault::Cache(Fault::BadConfig { field }));
    }
    let bytes = read_up_to(alloc, reader, MOST_BYTES)?;
    let job = Job {
        alloc,
        options,
        threads: threads as usize,
        gate,
    };
    let (text, verdict) = report_by_shard(rt, &job, bytes)?;
    write_pieces(writer, &text)?;
    verdict
}
