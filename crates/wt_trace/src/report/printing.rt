// Prints the lines of a report on threads: each prints a piece, and the pieces stand in their order.
ghost use Rattle.std.specs.Prelude.{◌≡◌, ◌++◌, ◌+◌, ◌<◌, ◌≤◌, ◌^◌, All, IfOk, OnOk, length, vec_len};
ghost use Rattle.wt_trace.specs.Contract.{IsCut};
ghost use Rattle.wt_trace.specs.Report.{ArePieces, lines_text, piece_text};
ghost use Rattle.wt_trace.specs.Report as spec;
ghost use Rattle.wt_trace.specs.Trace.{line_end};

use crate::report::summary::show_summary;
use crate::report::texts::Texts;
use crate::shard::answers::ShardAnswers;
use crate::trace::digits::show_number;
use std::alloc::{AllocError, Global};
use std::thread;
use std::thread::Threads;
use wt_keys::NoMemory;

/// The lines that a report prints, once all shards did them.
#[derive(Drop)]
pub struct Answered<'a> {
    /// The number of the first line.
    pub first: u64,
    /// How many lines there are.
    pub count: usize,
    /// The texts that each shard adds to them, in the order of the shards.
    pub all: &'a [ShardAnswers],
}

// Bytes that are asked for at once for a printed line. More are asked for if they are needed.
const PRINTED_A_LINE: usize = 24;

// Appends line i of the report: its number, and each shard's text for it.
#[tactic(auto, unfolding(crate::specs::Report::line_text))]
fn print_line(
    out: &mut Vec<u8>,
    first: u64,
    all: &[ShardAnswers],
    i: usize,
) -> Result<(), AllocError>
    requires whole { All (λ a. i < length a.texts) all.now }
    requires fits { first + i < 2 ^ 64 }
    ensures { OnOk result (out.new.items ≡ out.old.items ++ spec.line_text first all.now i) }
{
    show_number(out, first + i as u64)?;
    for answers in all {
        out.extend_from_slice(answers.text(i))?;
    }
    out.push(b'\n')?;
    Ok(())
}

// Appends `len` lines of the report, from line `from` on.
fn print_lines(
    out: &mut Vec<u8>,
    first: u64,
    all: &[ShardAnswers],
    from: usize,
    len: usize,
) -> Result<(), AllocError>
    requires whole { All (λ a. from + len ≤ length a.texts) all.now }
    requires fits { first + from + len < 2 ^ 64 }
    ensures { OnOk result (out.new.items ≡ out.old.items ++ lines_text first all.now from len) }
{
    for i in 0..len {
        print_line(out, first, all, from + i)?;
    }
    Ok(())
}

// The text that thread `t` prints: of at most `most` lines from the one of number `t * most` on, and
// empty past the last.
fn piece(alloc: Global, lines: &Answered<'_>, most: usize, t: usize) -> Result<Vec<u8>, AllocError>
    requires cut { IsCut lines.now.first lines.now.all.now lines.now.count most }
    requires t { t < 64 }
    ensures { IfOk result (λ out. out.items
        ≡ piece_text lines.now.first lines.now.all.now lines.now.count most t) }
{
    let Answered { first, count, all } = *lines;
    let from = (t * most).min(count);
    let len = most.min(count - from);
    let mut out = Vec::with_capacity(alloc, len.saturating_mul(PRINTED_A_LINE))?;
    print_lines(&mut out, first, all, from, len)?;
    Ok(out)
}

// All pieces.
fn pieces<H: Threads + Sync>(
    rt: &H,
    alloc: Global,
    lines: &Answered<'_>,
    most: usize,
    threads: usize,
) -> Result<Vec<Result<Vec<u8>, AllocError>>, AllocError>
    requires cut { IsCut lines.now.first lines.now.all.now lines.now.count most }
    requires threads { threads ≤ 64 }
    ensures len { IfOk result (λ pieces. vec_len pieces ≡ threads) }
    ensures each { IfOk result (λ pieces. ArePieces lines.now.first lines.now.all.now
        lines.now.count most threads pieces.items) }
{
    thread::map_indices(
        rt,
        alloc,
        threads,
        &|t: usize| -> Result<Vec<u8>, AllocError>
            requires { IsCut lines.now.first lines.now.all.now lines.now.count most × (t < 64) }
            ensures { IfOk result (λ out. out.items ≡ piece_text lines.entry.now.first
                lines.entry.now.all.now lines.entry.now.count most t) }
        { piece(alloc, lines, most, t) },
    )
}

// The lines of a report, each thread's piece behind the piece before it.
fn lines_on_threads<H: Threads + Sync>(
    rt: &H,
    alloc: Global,
    lines: &Answered<'_>,
    threads: usize,
) -> Result<Texts, NoMemory>
    requires whole { All (λ a. length a.texts ≡ lines.now.count) lines.now.all.now }
    requires fits { lines.now.first + lines.now.count ≤ line_end }
    requires threads { (0 < threads) × (threads ≤ 64) }
    ensures { IfOk result (λ text. text
        ≡ lines_text lines.now.first lines.now.all.now 0 lines.now.count) }
{
    let most = lines.count / threads + 1;
    let pieces = pieces(rt, alloc, lines, most, threads)?;
    let mut text = Texts::new(alloc);
    for piece in pieces {
        text.push(piece?)?;
    }
    Ok(text)
}

/// Returns the report of the lines. Prints them on `threads` threads, and the summary behind them
/// if they are complete.
///
/// Takes memory for the text.
#[tactic(auto, unfolding(crate::specs::Report::printed))]
pub fn text_on_threads<H: Threads + Sync>(
    rt: &H,
    alloc: Global,
    lines: &Answered<'_>,
    complete: bool,
    threads: usize,
) -> Result<Texts, NoMemory>
    requires few { length lines.now.all.now ≤ 4 }
    requires whole { All (λ a. length a.texts ≡ lines.now.count) lines.now.all.now }
    requires fits { lines.now.first + lines.now.count ≤ line_end }
    requires threads { (0 < threads) × (threads ≤ 64) }
    ensures { IfOk result (λ text. text
        ≡ spec.printed lines.now.first lines.now.count complete lines.now.all.now) }
{
    let mut text = lines_on_threads(rt, alloc, lines, threads)?;
    if complete {
        let mut summary = Vec::new(alloc);
        show_summary(&mut summary, lines.all)?;
        text.push(summary)?;
    }
    Ok(text)
}
