// One shard's answers to the lines of a trace: a text for each line, and its numbers at the end.
ghost use Rattle.std.specs.Prelude.{◌≡◌, ◌<◌, ◌≤◌, length, slice_range, get_or, [], ◌∷◌};
ghost use Rattle.wt_trace.specs.Pieces.{pieces, AreEnds};

use std::marker::Model;
use wt_core::Stats;

/// The answers of a shard: the text that it adds to each line, and its numbers at the end.
///
/// The texts stand one behind the other, so that a line costs its bytes and 4 more.
#[derive(Drop)]
pub struct ShardAnswers {
    pub(crate) text: Vec<u8>,
    // where the text of each line ends
    pub(crate) ends: Vec<u32>,
    pub(crate) stats: Stats,
}

impl Model for ShardAnswers {
    ghost use Rattle.std.specs.Prelude.{length};
    ghost use Rattle.wt_core.specs.Lawful.{AreSmall};
    ghost use Rattle.wt_trace.specs.Answers.{ShardAnswers};
    ghost use Rattle.wt_trace.specs.Pieces.{pieces, AreEnds};

    ghost Value = { ShardAnswers };

    ghost view = { λ a. record { texts = pieces a.text.items 0 a.ends.items; stats = a.stats } };

    ghost invariant = { λ a. AreEnds (length a.text.items) 0 a.ends.items × AreSmall a.stats };
}

impl ShardAnswers {
    ghost use Rattle.wt_core.specs.Lawful.{AreSmall};

    /// Returns the text that is added to the i-th line, from 0.
    pub fn text(&self, i: usize) -> &[u8]
        requires { i < length self.now.texts }
        ensures { result.now ≡ get_or self.now.texts i [] }
    {
        text_at(&self.text, &self.ends, i)
    }

    /// Returns the numbers at the end.
    pub fn stats(&self) -> Stats
        ensures numbers { result ≡ self.now.stats }
        ensures small { AreSmall self.now.stats }
    {
        self.stats
    }
}

// Where the text before the i-th ends, from 0.
fn start_of(ends: &[u32], i: usize) -> usize
    requires { i ≤ length ends.now }
    ensures { result ≡ get_or (0 ∷ ends.now) i 0 }
{
    if i == 0 {
        return 0;
    }
    ends[i - 1] as usize
}

// The i-th of the texts that stand one behind the other.
fn text_at<'a>(text: &'a [u8], ends: &[u32], i: usize) -> &'a [u8]
    requires ends { AreEnds (length text.now) 0 ends.now }
    requires within { i < length ends.now }
    ensures { result.now ≡ get_or (pieces text.now 0 ends.now) i [] }
{
    between(text, start_of(ends, i), ends[i] as usize)
}

// The bytes from one place to another.
fn between(text: &[u8], start: usize, end: usize) -> &[u8]
    requires order { start ≤ end }
    requires within { end ≤ length text.now }
    ensures { result.now ≡ slice_range text.now start end }
{
    &text[start..end]
}
