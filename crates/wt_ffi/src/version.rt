// The library's version.
ghost use Rattle.std.specs.Prelude.{◌≡◌};

/// Returns the library's version: a million times its first number, a thousand times its second,
/// and its third.
///
/// Takes no memory. O(1).
#[unsafe(no_mangle)]
pub extern "C" fn rd_version() -> u64
    ensures { result ≡ 2000 }
{
    2000
}
