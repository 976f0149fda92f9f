// The keys of a trace: numbers and names.
ghost use Rattle.std.specs.Prelude.{◌≡◌, ◌++◌, ℕ, List, Option, OnOk, decimal};
ghost use Rattle.std.specs.List.{list_all};
ghost use Rattle.wt_trace.specs.Keys.{number_of, name_of, is_name_byte};

use crate::trace::digits::{number_of, show_number};
use std::alloc::AllocError;
use wt_keys::{CacheKey, Name};

/// A key that a line can name and a report can print.
pub trait TraceKey: CacheKey {
    ghost read: { List ℕ → Option Self };

    ghost shown: { Self → List ℕ };

    /// Returns the key that the bytes spell.
    fn read(bytes: &[u8]) -> Option<Self>
        ensures { result ≡ read bytes.now };

    /// Appends the key to a text.
    fn show(&self, out: &mut Vec<u8>) -> Result<(), AllocError>
        ensures { OnOk result (out.new.items ≡ out.old.items ++ shown self.now) };
}

/// A number: 1 to 20 digits, printed without leading zeros.
impl TraceKey for u64 {
    ghost read = { number_of };

    ghost shown = { decimal };

    fn read(bytes: &[u8]) -> Option<u64> {
        number_of(bytes)
    }

    fn show(&self, out: &mut Vec<u8>) -> Result<(), AllocError> {
        show_number(out, *self)
    }
}

/// A name: 1 to 24 printed characters, none a space or a colon, printed as they are.
impl TraceKey for Name {
    ghost read = { name_of };

    ghost shown = { λ bytes. bytes };

    fn read(bytes: &[u8]) -> Option<Name> {
        if bytes.is_empty() || !are_name_bytes(bytes) {
            return None;
        }
        Name::from_bytes(bytes)
    }

    fn show(&self, out: &mut Vec<u8>) -> Result<(), AllocError> {
        out.extend_from_slice(self.as_bytes())
    }
}

// Whether a byte may stand in a name.
fn is_name_byte(byte: u8) -> bool
    ensures { result ≡ is_name_byte byte }
{
    33 <= byte && byte <= 126 && byte != 58
}

// Whether each of the bytes may stand in a name.
fn are_name_bytes(bytes: &[u8]) -> bool
    ensures { result ≡ list_all is_name_byte bytes.now }
{
    bytes.iter().all(|byte| is_name_byte(*byte))
}
