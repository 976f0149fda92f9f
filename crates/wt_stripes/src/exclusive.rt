// A value that only a `&mut` reaches.
ghost use Rattle.std.specs.Prelude.{◌≡◌};

use std::marker::{Model, Send, Sync};

/// A value that nobody reaches through a `&`. So threads may share a `&` of it, if only the value
/// may go from thread to thread.
///
/// Code reads and changes `value` through a `&mut` of the whole.
pub struct Exclusive<T> {
    pub value: T,
}

impl<T> Model for Exclusive<T> {
    ghost use base.Fml.{ftrue};

    ghost Value = { T };

    ghost view = { λ e. e.value };

    // It owns no more than the value. But a type that says so may say what a `&` of it shows:
    // nothing.
    ghost also_owns = { λ _. ftrue };
}

unsafe impl<T: Send> Send for Exclusive<T> {}

unsafe impl<T: Send> Sync for Exclusive<T> {}

impl<T: Drop> Drop for Exclusive<T> {
    fn drop(self) {
        let Exclusive { value: _ } = self;
    }
}

impl<T> Exclusive<T> {
    /// Puts the value in. O(1).
    pub fn new(value: T) -> Exclusive<T>
        ensures { result ≡ value }
    {
        Exclusive { value }
    }

    /// Takes the value out. O(1).
    pub fn into_inner(self) -> T
        ensures { result ≡ self }
    {
        let Exclusive { value } = self;
        value
    }
}
