// A text in pieces, so that none is moved once it is made.
ghost use Rattle.std.specs.Prelude.{◌≡◌, ◌++◌, [], OnOk};
ghost use Rattle.wt_trace.specs.Pieces.{whole};

use std::alloc::{AllocError, Global};
use std::marker::Model;

/// A piece of a text.
#[derive(Drop)]
pub struct Text {
    bytes: Vec<u8>,
}

impl Model for Text {
    ghost use Rattle.std.specs.Prelude.{List, ℕ};

    ghost Value = { List ℕ };

    ghost view = { λ t. t.bytes.items };
}

impl Text {
    /// Returns its bytes.
    pub fn as_slice(&self) -> &[u8]
        ensures { result.now ≡ self.now }
    {
        self.bytes.as_slice()
    }
}

/// Pieces of a text that stand one behind the other.
#[derive(Drop)]
pub struct Texts {
    pieces: Vec<Text>,
}

impl Model for Texts {
    ghost use Rattle.std.specs.Prelude.{List, ℕ};
    ghost use Rattle.wt_trace.specs.Pieces.{whole};

    ghost Value = { List ℕ };

    ghost view = { λ t. whole t.pieces.items };
}

impl Texts {
    /// Makes a text without a piece.
    pub fn new(alloc: Global) -> Texts
        ensures { result ≡ [] }
    {
        Texts {
            pieces: Vec::new(alloc),
        }
    }

    /// Appends a piece.
    pub fn push(&mut self, bytes: Vec<u8>) -> Result<(), AllocError>
        ensures { OnOk result (self.new ≡ self.old ++ bytes.items) }
    {
        self.pieces.push(Text { bytes })?;
        Ok(())
    }

    /// Returns the pieces, in their order.
    pub fn pieces(&self) -> &[Text]
        ensures { whole result.now ≡ self.now }
    {
        self.pieces.as_slice()
    }
}
