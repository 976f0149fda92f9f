// Cuts bytes at the first one that is a given byte, as a space or an LF.
ghost use Rattle.std.specs.Prelude.{◌≡◌, ◌==◌, position};
ghost use Rattle.std.specs.List.{before_first, after_first};

// Where such a byte stands first.
pub(crate) fn place_of(bytes: &[u8], stop: u8) -> Option<usize>
    ensures { result ≡ position (λ b. b == stop) bytes.now }
{
    bytes.iter().position(|b| *b == stop)
}

/// Returns the bytes before the first such byte, and those behind it.
pub fn cut(bytes: &[u8], stop: u8) -> (&[u8], &[u8])
    ensures front { result.0.now ≡ before_first (λ b. b == stop) bytes.now }
    ensures back { result.1.now ≡ after_first (λ b. b == stop) bytes.now }
{
    match place_of(bytes, stop) {
        Some(at) => (&bytes[..at], &bytes[at + 1..]),
        None => (bytes, &[]),
    }
}
