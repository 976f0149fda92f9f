// Reads the lines of a trace on threads. Each thread reads a chunk of the bytes that ends with a
// line, and the lines are put together in the order of the chunks. A thread doesn't know how many
// lines there are before its chunk, so a chunk with a fault is read again, with the right numbers
// of its lines.
ghost use Rattle.std.specs.Prelude.{◌≡◌, ◌==◌, ◌+◌, ◌<◌, ◌≤◌, [], ◌++◌, IfOk, None, position, get_or, slice_set, drop, length, vec_len};
ghost use Rattle.wt_trace.specs.Contract.{AreRead};
ghost use Rattle.wt_trace.specs.Trace.{AreAlone, AreLines, lines_of, lines_of_all, trace_from, line_end};

use crate::trace::bytes::place_of;
use crate::trace::key::TraceKey;
use crate::trace::pieces::{Piece, Pieces};
use crate::trace::{Lines, MOST_LINES, read_lines};
use std::alloc::{AllocError, Global};
use std::marker::Model;
use std::thread;
use std::thread::Threads;
use wt_keys::NoMemory;

// A part of a trace's bytes that ends with a line.
#[derive(Drop)]
struct Chunk<'a> {
    bytes: &'a [u8],
}

impl<'a> Model for Chunk<'a> {
    ghost use Rattle.std.specs.Prelude.{List, ℕ};

    ghost Value = { List ℕ };

    ghost view = { λ c. c.bytes.now };
}

// The bytes of the t-th chunk.
fn bytes_at<'a>(chunks: &[Chunk<'a>], t: usize) -> &'a [u8]
    requires { t < length chunks.now }
    ensures { result.now ≡ get_or chunks.now t [] }
{
    let chunk = &chunks[t];
    chunk.bytes
}

// Where the first LF at or behind a place stands, from there.
fn line_end(bytes: &[u8], from: usize) -> Option<usize>
    requires { from ≤ length bytes.now }
    ensures { result ≡ position (λ b. b == 10) (drop from bytes.now) }
{
    let (_, behind) = bytes.split_at(from);
    place_of(behind, b'\n')
}

// The bytes up to the first LF at or behind a place, with it, and those behind it.
fn cut_behind(bytes: &[u8], most: usize) -> (&[u8], &[u8])
    ensures { lines_of result.0.now ++ lines_of result.1.now ≡ lines_of bytes.now }
{
    if bytes.len() <= most {
        return (bytes, &[]);
    }
    match line_end(bytes, most) {
        Some(at) => bytes.split_at(most + at + 1),
        None => (bytes, &[]),
    }
}

// Cuts the bytes into `count` chunks.
fn cut_up<'a>(alloc: Global, bytes: &'a [u8], count: usize) -> Result<Vec<Chunk<'a>>, AllocError>
    requires { 0 < count }
    ensures { IfOk result (λ chunks. lines_of_all chunks.items ≡ lines_of bytes.now) }
{
    let most = bytes.len() / count;
    let mut out = Vec::new(alloc);
    let mut rest = bytes;
    for _t in 1..count {
        let (chunk, after) = cut_behind(rest, most);
        out.push(Chunk { bytes: chunk })?;
        rest = after;
    }
    out.push(Chunk { bytes: rest })?;
    Ok(out)
}

// The lines of a chunk, if none is at fault and there is memory for them.
fn read_chunk<K: TraceKey>(alloc: Global, first: u64, bytes: &[u8]) -> Option<Piece<K>>
    requires { first ≤ line_end }
    ensures { AreLines K.read first bytes.now result }
{
    let Ok(read) = read_lines::<K>(alloc, first, bytes) else {
        return None;
    };
    let Lines { lines, verdict } = read;
    if verdict.is_err() {
        return None;
    }
    Some(Piece::new(lines))
}

// The lines of all chunks, each read as if it were the first.
fn read_chunks<H: Threads + Sync, K: TraceKey>(
    rt: &H,
    alloc: Global,
    first: u64,
    chunks: &[Chunk<'_>],
) -> Result<Vec<Option<Piece<K>>>, AllocError>
    requires { first ≤ line_end }
    ensures len { IfOk result (λ read. vec_len read ≡ length chunks.now) }
    ensures each { IfOk result (λ read. AreAlone K.read first chunks.now read.items) }
{
    thread::map_indices(
        rt,
        alloc,
        chunks.len(),
        &|t: usize| -> Option<Piece<K>>
            requires { (first ≤ line_end) × (t < length chunks.now) }
            ensures { AreLines K.read first (get_or chunks.entry.now t []) result }
        { read_chunk(alloc, first, bytes_at(chunks, t)) },
    )
}

// The lines of a chunk whose first line is line n, from a thread's reading with other numbers.
fn numbered<K: TraceKey>(
    alloc: Global,
    first: u64,
    n: u64,
    bytes: &[u8],
    read: Option<Piece<K>>,
) -> Result<Lines<K>, NoMemory>
    requires n { n ≤ line_end }
    requires sound { AreLines K.read first bytes.now read }
    ensures { AreRead K.read n bytes.now result }
{
    if let Some(piece) = read {
        let lines = piece.into_lines();
        if lines.len() as u64 <= MOST_LINES + 1 - n {
            return Ok(Lines {
                lines,
                verdict: Ok(()),
            });
        }
    }
    read_lines(alloc, n, bytes)
}

// Takes the lines of the t-th chunk.
fn take_piece<K: TraceKey>(read: &mut Vec<Option<Piece<K>>>, t: usize) -> Option<Piece<K>>
    requires { t < vec_len read.old }
    ensures taken { result ≡ get_or read.old.items t None }
    ensures left { read.new.items ≡ slice_set read.old.items t None }
{
    read[t].take()
}

// The lines of all chunks up to the first fault, from the readings of the threads.
fn put_together<K: TraceKey>(
    alloc: Global,
    first: u64,
    chunks: &[Chunk<'_>],
    read: Vec<Option<Piece<K>>>,
) -> Result<Pieces<K>, NoMemory>
    requires first { first ≤ line_end }
    requires len { vec_len read ≡ length chunks.now }
    requires each { AreAlone K.read first chunks.now read.items }
    ensures few { IfOk result (λ all. first + length all.lines ≤ line_end) }
    ensures lines { IfOk result (λ all. all ≡ trace_from K.read first (lines_of_all chunks.now)) }
{
    let mut read = read;
    let mut all = Pieces::new(alloc);
    for t in 0..chunks.len() {
        let n = first + all.len() as u64;
        let own = take_piece(&mut read, t);
        let one = numbered(alloc, first, n, bytes_at(chunks, t), own)?;
        all.push(one)?;
        if all.verdict().is_err() {
            return Ok(all);
        }
    }
    Ok(all)
}

/// Reads the lines of the bytes, the first of which is line `first`, as `read_lines` does, on so
/// many threads.
pub fn read_on_threads<H: Threads + Sync, K: TraceKey>(
    rt: &H,
    alloc: Global,
    first: u64,
    bytes: &[u8],
    threads: usize,
) -> Result<Pieces<K>, NoMemory>
    requires first { first ≤ line_end }
    requires threads { 0 < threads }
    ensures few { IfOk result (λ all. first + length all.lines ≤ line_end) }
    ensures lines { IfOk result (λ all. all ≡ trace_from K.read first (lines_of bytes.now)) }
{
    let chunks = cut_up(alloc, bytes, threads)?;
    let read = read_chunks(rt, alloc, first, &chunks)?;
    put_together(alloc, first, &chunks, read)
}
