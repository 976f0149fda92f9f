// A key of at most 24 bytes.
ghost use Rattle.std.specs.Prelude.{◌≡◌, ℕ, ◌≤◌, List, length, Some, None, nat_eq, nat_le, if◌then◌else◌};
ghost use Rattle.std.specs.Fmt.{WritesOnOk};
ghost use Rattle.std.specs.Str.Lossy.{utf8_lossy};
ghost use Rattle.std.specs.Cmp.{partial_equiv_from_equiv};
ghost use Rattle.std.specs.Cmp.Lexicographic.{pointwise, nat_list_eq_equiv};
ghost use Rattle.std.specs.Cmp.Rules.{hashing};
ghost use Rattle.std.specs.Hash as fed;
ghost use Rattle.std.proofs.Common.{rules};
ghost use Rattle.wt_keys.specs.Hash.{word_of_name};

use crate::key::CacheKey;
use std::fmt;
use std::hash::{Hash, Hasher};
use std::marker::Model;

/// A name of at most 24 bytes, which lie in the value itself. Contracts see it as its list of
/// bytes.
///
/// Two names are equal exactly if their bytes are. The bytes need not be text.
#[derive(Clone, Copy)]
pub struct Name {
    // The bytes, and zeros behind them; never changes.
    cells: [u8; 24],
    // How many of the cells are the name's.
    len: usize,
}

impl Model for Name {
    ghost use Rattle.std.specs.Prelude.{ℕ, List, ◌≡◌, ◌≤◌, ◌-◌, ◌++◌, length, take, replicate};
    ghost use Rattle.std.proofs.Common.{arith, length-take-le, sym, ap, ◌∙◌};
    ghost use Rattle.wt_keys.specs.Names.{IsName};

    ghost Value = { List ℕ };

    ghost view = { λ n. take n.len n.cells };

    ghost invariant = { λ n. IsName n.cells n.len };

    ghost inverse = { λ bytes. record { cells = bytes ++ replicate (24 - length bytes) 0; len = length bytes } };

    ghost inverse_ok = { λ n h i. let len : length (take n.len n.cells) ≡ n.len = length-take-le n.len n.cells (omega (arith, h.fits, h.all)) in record {
      cells = (ap (λ m. take n.len n.cells ++ replicate (24 - m) 0) len ∙ sym h.rest) i;
      len = len i;
    } };
}

impl Name {
    /// Makes a name of the bytes: `Some` exactly for at most 24 of them. Takes no memory.
    pub fn from_bytes(bytes: &[u8]) -> Option<Name>
        ensures { result ≡ (if nat_le (length bytes.now) 24 then Some bytes.now else None) }
    {
        if bytes.len() > 24 {
            return None;
        }
        let mut cells = [0; 24];
        cells[..bytes.len()].copy_from_slice(bytes);
        Some(Name {
            cells,
            len: bytes.len(),
        })
    }

    /// Returns the bytes.
    pub fn as_bytes(&self) -> &[u8]
        ensures value { result.now ≡ self.now }
        ensures fits { length self.now ≤ 24 }
    {
        &self.cells[..self.len]
    }
}

/// Equal exactly if the bytes are.
impl PartialEq for Name {
    ghost eq = { pointwise nat_eq };

    ghost laws = { partial_equiv_from_equiv nat_list_eq_equiv };

    fn eq(&self, other: &Self) -> bool {
        self.as_bytes() == other.as_bytes()
    }
}

impl Eq for Name {
    ghost laws = { nat_list_eq_equiv };
}

/// Feeds the hasher as the slice of its bytes does.
impl Hash for Name {
    ghost hash_input = { fed.slice fed.u8 };

    ghost respects_eq = { Prim.search (hashing, rules) };

    fn hash<H: Hasher>(&self, state: &mut H) {
        self.as_bytes().hash(state);
    }
}

/// The word of a name is the FNV-1a hash of its bytes, in 64 bits.
///
/// Each call computes it anew, a multiplication a byte: keep it if you use it more than once.
impl CacheKey for Name {
    ghost use Rattle.std.specs.Cmp.Lexicographic.{same_text};
    ghost use Rattle.std.proofs.Common.{sym};

    ghost word = { word_of_name };

    fn word(&self) -> u64 {
        let mut word = 0xCBF2_9CE4_8422_2325u64;
        for &byte in self.as_bytes() {
            word = (word ^ byte as u64).wrapping_mul(0x100_0000_01B3);
        }
        word
    }

    ghost same = { λ a b e. same_text a b (sym e) };
}

/// Writes the name's text, padded to a width as a `str` is. If the bytes aren't UTF-8, writes
/// U+FFFD for each invalid sequence, and ignores the width.
impl fmt::Display for Name {
    ghost output = { λ n. Some (utf8_lossy n) };

    fn fmt<W: fmt::Write>(&self, f: &mut fmt::Formatter<W>) -> fmt::Result {
        match str::from_utf8(self.as_bytes()) {
            Ok(text) => f.pad(text),
            Err(_) => write_lossily(self.as_bytes(), f),
        }
    }
}

// The bytes with U+FFFD for each invalid sequence.
fn write_lossily<W: fmt::Write>(bytes: &[u8], f: &mut fmt::Formatter<W>) -> fmt::Result
    ensures { WritesOnOk W.write_str_gives f.old result (utf8_lossy bytes.now) f.new }
{
    for chunk in bytes.utf8_chunks() {
        f.write_str(chunk.valid())?;
        if !chunk.invalid().is_empty() {
            f.write_str("\u{FFFD}")?;
        }
    }
    Ok(())
}

/// Writes the name's text in quotes, escaped as a `str`'s is; a byte that isn't UTF-8 as `\xff`.
impl fmt::Debug for Name {
    fn fmt<W: fmt::Write>(&self, f: &mut fmt::Formatter<W>) -> fmt::Result {
        f.write_str("\"")?;
        for chunk in self.as_bytes().utf8_chunks() {
            write!(f, "{}", chunk.valid().escape_debug())?;
            write!(f, "{}", chunk.invalid().escape_ascii())?;
        }
        f.write_str("\"")
    }
}
