// The report of a trace on one thread.
//
//     bytes  ──► behind_header   whether its keys are numbers or names
//            ──► cut, checked    one line after another, up to the first fault
//     line n ──► show_line       all shards do it; its number and their texts are appended
//     shards ──► totals          the sums of their counts, if no line was at fault
//            ──► show_numbers    the summary, behind the lines
//
// The result is the text, and the verdict: the fault of the first faulty line. A line is done, and
// its text appended, before the next one is read.
ghost use Rattle.std.specs.Prelude.{◌≡◌, ◌≤◌, ◌++◌, IfOk, IfErr, OnOk, length, map, vec_len, None};
ghost use Rattle.wt_core.specs.State.{stats_of};
ghost use Rattle.wt_core.specs.Sums.{AreSums};
ghost use Rattle.wt_trace.specs.Contract.{AreShown, IsPrinted};
ghost use Rattle.wt_trace.specs.Keys.{keys_of};
ghost use Rattle.wt_trace.specs.Options.{option_fault};
ghost use Rattle.wt_trace.specs.Report.{report_from};
ghost use Rattle.wt_trace.specs.Report as spec;
ghost use Rattle.wt_trace.specs.Standing.{line_by, new_standings, next_standing, standing_of};
ghost use Rattle.wt_trace.specs.Stops.{IsStop};
ghost use Rattle.wt_trace.specs.Trace.{line_end};

pub(crate) mod on_threads;
pub(crate) mod printing;
pub(crate) mod summary;
pub(crate) mod texts;

use crate::fault::ReplayFault;
use crate::options::Options;
use crate::report::summary::show_numbers;
use crate::shard::Shard;
use crate::shard::gate::Open;
use crate::trace::bytes::cut;
use crate::trace::checked;
use crate::trace::digits::show_number;
use crate::trace::header::behind_header;
use crate::trace::key::TraceKey;
use crate::trace::line::Line;
use std::alloc::Global;
use wt_core::Stats;
use wt_keys::{Name, NoMemory};

// Makes all shards, in their order.
fn new_shards<K: TraceKey>(alloc: Global, options: &Options) -> Result<Vec<Shard<K>>, NoMemory>
    requires { option_fault options.now ≡ None }
    ensures made { IfOk result (λ all. map standing_of all.items ≡ new_standings options.now) }
    ensures few { IfOk result (λ shards. vec_len shards ≤ 4) }
{
    let mut shards = Vec::new(alloc);
    for number in 0..options.shards() {
        shards.push(Shard::new(alloc, options, number)?)?;
    }
    Ok(shards)
}

// Does line n at all shards, and appends line n of the report.
fn show_line<K: TraceKey>(
    shards: &mut [Shard<K>],
    n: u64,
    line: &Line<K>,
    out: &mut Vec<u8>,
) -> Result<(), ReplayFault>
    ensures text { OnOk result (out.new.items ≡ out.old.items
        ++ line_by (keys_of K.TraceKey) n line.now (map standing_of shards.old)) }
    ensures state { OnOk result (map standing_of shards.new
        ≡ map (next_standing (keys_of K.TraceKey) n line.now) (map standing_of shards.old)) }
    ensures err { IfErr result (IsStop (λ _. ⊥)) }
{
    show_number(out, n)?;
    for shard in shards.iter_mut() {
        shard.do_line(&Open, n, line, out)?;
    }
    out.push(b'\n')?;
    Ok(())
}

// Does the lines of the bytes, the first of which is line `first`, at all shards, up to the first
// fault, and appends the lines of the report. Returns the fault of the line behind them, if it has
// one.
//
// `read_lines` has the same loop, and keeps the lines. This one keeps none, so that a long trace
// takes no memory for them.
fn show_lines<K: TraceKey>(
    shards: &mut [Shard<K>],
    first: u64,
    bytes: &[u8],
    out: &mut Vec<u8>,
) -> Result<Result<(), ReplayFault>, ReplayFault>
    requires { first ≤ line_end }
    ensures { AreShown (keys_of K.TraceKey) first bytes.now (map standing_of shards.old)
        (map standing_of shards.new) out.old.items out.new.items result }
{
    let mut rest = bytes;
    let mut n = first;
    while !rest.is_empty() {
        let (line, after) = cut(rest, b'\n');
        match checked(n, line) {
            Ok(line) => show_line(shards, n, &line, out)?,
            Err(fault) => return Ok(Err(fault)),
        }
        rest = after;
        n += 1;
    }
    Ok(Ok(()))
}

// The sums of the numbers of all shards.
fn totals<K: TraceKey>(shards: &[Shard<K>]) -> Stats
    requires { length shards.now ≤ 4 }
    ensures { AreSums (λ shard. stats_of shard.cache.state) result shards.now }
{
    let mut sum = Stats::NOTHING;
    for shard in shards {
        sum = sum.plus(&shard.stats());
    }
    sum
}

// The report of a trace whose first line is line `first`, whatever its keys are.
fn report_of<K: TraceKey>(
    alloc: Global,
    options: &Options,
    first: u64,
    bytes: &[u8],
) -> Result<(Vec<u8>, Result<(), ReplayFault>), ReplayFault>
    requires options { option_fault options.now ≡ None }
    requires first { first ≤ line_end }
    ensures { IsPrinted (report_from (keys_of K.TraceKey) options.now first bytes.now) result }
{
    let mut shards = new_shards::<K>(alloc, options)?;
    let mut out = Vec::new(alloc);
    let verdict = show_lines(shards.as_mut_slice(), first, bytes, &mut out)?;
    if verdict.is_err() {
        return Ok((out, verdict));
    }
    show_numbers(&mut out, &totals(&shards))?;
    Ok((out, verdict))
}

/// Returns the report of the bytes of a trace, and the verdict: the fault of the first faulty line,
/// if there is one. If the first line is `wt 2` the keys are names, else numbers.
///
/// Takes memory for each shard's cache, for two lists of notices with room for its entries, and for
/// the report.
pub fn report(
    alloc: Global,
    bytes: &[u8],
    options: &Options,
) -> Result<(Vec<u8>, Result<(), ReplayFault>), ReplayFault>
    requires { option_fault options.now ≡ None }
    ensures made { IsPrinted (spec.report options.now bytes.now) result }
{
    let Some(rest) = behind_header(bytes) else {
        return report_of::<u64>(alloc, options, 1, bytes);
    };
    report_of::<Name>(alloc, options, 2, rest)
}
