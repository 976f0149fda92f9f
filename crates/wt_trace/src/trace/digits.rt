// Reads and prints numbers as decimal digits.
ghost use Rattle.std.specs.Prelude.{◌≡◌, ◌++◌, ◌^◌, ◌≤◌, OnOk, IfSome, IsNone, decimal};
ghost use Rattle.std.specs.Str.Parse.{AllDigits, digits_value};
ghost use Rattle.wt_trace.specs.Keys.{IsValueOf, number_of};

use itoa::Buffer;
use std::alloc::AllocError;

// The value of digits, unless it is 2^64 or more.
fn value_of(digits: &[u8]) -> Option<u64>
    ensures some { IfSome result (IsValueOf digits.now) }
    ensures none { IsNone result → AllDigits 10 digits.now → 2 ^ 64 ≤ digits_value 10 digits.now }
{
    let mut n = 0u64;
    for b in digits {
        if !b.is_ascii_digit() {
            return None;
        }
        n = n.checked_mul(10)?.checked_add(u64::from(*b - b'0'))?;
    }
    Some(n)
}

/// Returns the number that 1 to 20 digits spell, below 2^64.
pub fn number_of(digits: &[u8]) -> Option<u64>
    ensures { result ≡ number_of digits.now }
{
    if digits.len() < 1 || 20 < digits.len() {
        return None;
    }
    value_of(digits)
}

/// Appends the digits of a number.
pub fn show_number(out: &mut Vec<u8>, n: u64) -> Result<(), AllocError>
    ensures { OnOk result (out.new.items ≡ out.old.items ++ decimal n) }
{
    let mut digits = Buffer::new();
    out.extend_from_slice(digits.format(n).as_bytes())
}
