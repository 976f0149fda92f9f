ghost use Rattle.std.specs.Prelude.{◌≡◌};

mod calls;
mod clocks;
mod compare;
mod services;

use rookdresser::Keyed;

// A number that knows its key.
type Number = Keyed<u64, u64>;

// The tenfold number.
fn tenfold(key: u64) -> u64 {
    key.wrapping_mul(10)
}

// This number for this key.
fn number(key: u64, value: u64) -> Number
    ensures { result ≡ record { key = key; value = value } }
{
    Keyed { key, value }
}
