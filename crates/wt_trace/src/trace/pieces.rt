// The lines of a trace in pieces, and a walk over all of them.
ghost use Rattle.std.specs.Prelude.{◌≡◌, ◌+◌, ◌<◌, ◌^◌, ◌++◌, [], ◌∷◌, OnOk, MatchOption, Ok, length};
ghost use Rattle.wt_trace.specs.Trace.{joined, trace_with};

use crate::fault::ReplayFault;
use crate::trace::Lines;
use crate::trace::key::TraceKey;
use crate::trace::line::Line;
use std::alloc::{AllocError, Global};
use std::marker::Model;

/// Lines that follow one another.
#[derive(Drop)]
pub struct Piece<K> {
    lines: Vec<Line<K>>,
}

impl<K> Model for Piece<K> {
    ghost use Rattle.std.specs.Prelude.{List};
    ghost use Rattle.wt_trace.specs.declared.trace.line.Line.{Line};

    ghost Value = { List (Line K) };

    ghost view = { λ p. p.lines.items };
}

impl<K> Piece<K> {
    /// Makes a piece of these lines.
    pub fn new(lines: Vec<Line<K>>) -> Piece<K>
        ensures { result ≡ lines.items }
    {
        Piece { lines }
    }

    /// Returns the lines.
    pub fn into_lines(self) -> Vec<Line<K>>
        ensures { result.items ≡ self }
    {
        let Piece { lines } = self;
        lines
    }
}

/// The lines of a trace up to the first fault, in pieces, and that fault.
#[derive(Drop)]
pub struct Pieces<K> {
    pieces: Vec<Piece<K>>,
    // How many lines the pieces have.
    count: usize,
    verdict: Result<(), ReplayFault>,
}

impl<K> Model for Pieces<K> {
    ghost use Rattle.std.specs.Prelude.{◌≡◌, length};
    ghost use Rattle.wt_trace.specs.Trace.{Trace, joined};

    ghost Value = { Trace K };

    ghost view = { λ p. record { lines = joined p.pieces.items; verdict = p.verdict } };

    ghost invariant = { λ p. p.count ≡ length (joined p.pieces.items) };
}

impl<K: TraceKey> Pieces<K> {
    /// Makes one without a line.
    pub fn new(alloc: Global) -> Pieces<K>
        ensures { result ≡ record { lines = []; verdict = Ok tt } }
    {
        Pieces {
            pieces: Vec::new(alloc),
            count: 0,
            verdict: Ok(()),
        }
    }

    /// Appends lines, and takes their verdict.
    pub fn push(&mut self, read: Lines<K>) -> Result<(), AllocError>
        requires { length self.old.lines + length read.lines.items < 2 ^ 64 }
        ensures { OnOk result (self.new ≡ trace_with self.old read.lines.items read.verdict) }
    {
        let Lines { lines, verdict } = read;
        let count = lines.len();
        self.pieces.push(Piece::new(lines))?;
        self.count += count;
        self.verdict = verdict;
        Ok(())
    }

    /// Returns how many lines there are.
    pub fn len(&self) -> usize
        ensures { result ≡ length self.now.lines }
    {
        self.count
    }

    /// Returns the fault of the line behind them, if it has one.
    pub fn verdict(&self) -> Result<(), ReplayFault>
        ensures { result ≡ self.now.verdict }
    {
        self.verdict
    }

    /// Returns a walk over the lines.
    pub fn walk(&self) -> Walk<'_, K>
        ensures { result ≡ self.now.lines }
    {
        Walk {
            piece: &[],
            later: self.pieces.as_slice(),
        }
    }
}

/// The lines that are left of a walk.
#[derive(Drop)]
pub struct Walk<'a, K> {
    piece: &'a [Line<K>],
    later: &'a [Piece<K>],
}

impl<'a, K> Model for Walk<'a, K> {
    ghost use Rattle.std.specs.Prelude.{List, ◌++◌};
    ghost use Rattle.wt_trace.specs.Trace.{joined};
    ghost use Rattle.wt_trace.specs.declared.trace.line.Line.{Line};

    ghost Value = { List (Line K) };

    ghost view = { λ w. w.piece.now ++ joined w.later.now };
}

impl<'a, K> Walk<'a, K> {
    /// Returns how many lines are left, for taking memory at once. No clause promises the number.
    pub fn room(&self) -> usize {
        let mut count = self.piece.len();
        for piece in self.later {
            count = count.saturating_add(piece.lines.len());
        }
        count
    }

    /// Takes the next line, if one is left.
    pub fn next(&mut self) -> Option<&'a Line<K>>
        ensures { MatchOption result (self.old ≡ []) (λ line. self.old ≡ line.now ∷ self.new) }
    {
        let (piece, later) = next_piece(self.piece, self.later);
        let (line, after) = piece.split_first()?;
        self.piece = after;
        self.later = later;
        Some(line)
    }
}

// The first piece that has a line, if there is one, and those behind it.
fn next_piece<'a, K>(piece: &'a [Line<K>], later: &'a [Piece<K>]) -> (&'a [Line<K>], &'a [Piece<K>])
    ensures same { result.0.now ++ joined result.1.now ≡ piece.now ++ joined later.now }
    ensures none { length result.0.now ≡ 0 → result.1.now ≡ [] }
{
    let mut piece = piece;
    let mut later = later;
    while piece.is_empty() {
        let Some((next, after)) = later.split_first() else {
            return (piece, later);
        };
        piece = next.lines.as_slice();
        later = after;
    }
    (piece, later)
}
