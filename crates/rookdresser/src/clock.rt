// Where the moments of calls come from.
use std::sync::atomic::{AtomicU64, Ordering};

/// A source of moments, in milliseconds since a start that never changes.
///
/// The cache counts a moment before its latest one as the latest. So if a clock runs back, entries
/// stay longer, and nothing else changes.
pub trait Clock {
    ghost use Rattle.std.specs.Prelude.{⊤, ℕ};

    /// The moments that the clock may show: all, unless it narrows them.
    ghost shows: { Self → ℕ → Type 0 } = { λ _ _. ⊤ };

    /// Returns the moment.
    ///
    /// It is called with no lock held, by several threads at once.
    fn moment(&self) -> u64
        ensures { shows self.now result };
}

/// The system's monotonic clock. If it can't be read, the moment is 0.
#[derive(Drop)]
pub struct Monotonic<'r, R> {
    rt: &'r R,
}

impl<'r, R> Monotonic<'r, R> {
    /// The clock of this runtime.
    pub fn of(rt: &'r R) -> Monotonic<'r, R> {
        Monotonic { rt }
    }
}

impl<'r, R: std::time::Clock> Clock for Monotonic<'r, R> {
    fn moment(&self) -> u64 {
        match self.rt.monotonic() {
            Ok(time) => u64::try_from(time.as_millis()).unwrap_or(u64::MAX),
            Err(_) => 0,
        }
    }
}

/// A service's threads borrow its clock.
impl<T: Clock> Clock for &T {
    ghost shows = { λ clock now. T.shows clock.now now };

    fn moment(&self) -> u64 {
        (**self).moment()
    }
}

/// A clock that stands still.
impl Clock for u64 {
    ghost use Rattle.std.specs.Prelude.{◌≡◌};

    ghost shows = { λ clock now. now ≡ clock };

    fn moment(&self) -> u64 {
        *self
    }
}

/// A clock that a test moves by hand.
impl Clock for AtomicU64 {
    fn moment(&self) -> u64 {
        self.load(Ordering::SeqCst)
    }
}
