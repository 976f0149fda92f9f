// The traits of values: how a cache shares a value, and which keys the value may stand for.
ghost use Rattle.std.specs.Prelude.{◌≡◌, IfOk, IsOk, IsTrue, Bool, true, false};

use crate::fault::NoMemory;

/// A value that the cache can share with a caller while it keeps it.
///
/// A share is equal to its value. The cache makes one at each hit and for each sharer of a load, so
/// it should be cheap: a copy, or a further owner as [`Shared`](crate::Shared) makes one.
pub trait Share: Sized + Drop {
    /// Whether a share is a copy, which is never refused.
    ghost is_copied: { Bool } = { false };

    /// Returns a second value that equals this one, or `NoMemory` if it can't be made now.
    fn share(&self) -> Result<Self, NoMemory>
        ensures answer { IfOk result (λ second. second ≡ self.now) }
        ensures succeeds { IsTrue is_copied → IsOk result };

    /// Returns whether a share is a copy, which is never refused: `false`, unless the type says
    /// otherwise.
    ///
    /// A cache looks such a value up once for a hit, and any other value twice. Takes no memory.
    /// O(1).
    fn is_copied() -> bool
        ensures { IsTrue result → IsTrue is_copied }
    {
        false
    }
}

/// A value that knows which keys it may stand for: those for which a loader may return it.
pub trait Answers<K> {
    ghost answers: { Self → K → Bool };

    /// Returns whether this value may stand for the key. A function of the two. O(1).
    fn answers(&self, key: &K) -> bool
        ensures { result ≡ answers self.now key.now };
}

/// The share of a number is the number. Never refused.
impl Share for u64 {
    ghost is_copied = { true };

    fn share(&self) -> Result<u64, NoMemory>
        ensures answer { IfOk result (λ second. second ≡ self.now) }
        ensures succeeds { IsOk result }
    {
        Ok(*self)
    }

    fn is_copied() -> bool {
        true
    }
}
