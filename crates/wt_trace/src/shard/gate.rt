// The gate that the threads of a replay ask before each line, and that may stop them.
ghost use Rattle.std.specs.Prelude.{◌≡◌, ℕ, Bool, true};

use std::marker::Sync;

/// The gate that the threads of a replay ask before they handle a line.
pub trait Gate: Sync {
    // the answers that it may give for a line
    ghost answers: { Self → ℕ → Bool → Type 0 };

    /// Returns whether the line of this number may be handled. A thread asks before it handles a
    /// line, in its own time.
    fn pass(&self, line: u64) -> bool
        ensures { answers self.now line result };
}

/// A gate that is always open.
#[derive(Drop)]
pub struct Open;

impl Gate for Open {
    ghost answers = { λ _ _ answer. answer ≡ true };

    fn pass(&self, _line: u64) -> bool {
        true
    }
}
