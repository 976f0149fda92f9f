// What lies behind a lock, and the guards: one to change the value, and one to read it.
ghost use Rattle.std.specs.Prelude.{⊤, IsSome};
ghost use Rattle.std.specs.Sync.Mutex.{mutex_guard_value};

use std::ops::Deref;
use std::sync::{Arc, MutexGuard, Wait};

// What lies behind each lock. The value is in a box, so that an owner that is dropped moves no more
// than a pointer.
#[derive(Drop)]
pub(crate) struct Owner<T> {
    // None behind the lock of a stripe that is closed.
    pub(crate) value: Option<Arc<Box<T>>>,
    // Of the main lock alone: how many reads there were behind it since the last change, counted up
    // to a limit.
    pub(crate) reads: u32,
}

/// The right to change a `Striped` value, which no other thread reads or changes meanwhile. Its
/// drop releases the lock.
#[derive(Drop)]
pub struct WriteGuard<'a, T> {
    pub(crate) main: MutexGuard<'a, Owner<T>>,
}

impl<T> WriteGuard<'_, T> {
    /// Returns the value, to be changed. O(1).
    ///
    /// The stripes are closed, so nobody else owns the value. The types can't say so: if somebody
    /// did, this would never return.
    #[inline(always)]
    pub fn value<R: Wait>(&mut self, rt: &R) -> &mut T {
        match &mut self.main.value {
            Some(owner) => match Arc::get_mut(owner) {
                Some(value) => return value,
                None => {}
            },
            None => {}
        }
        for _ in rt.forever() {}
        unreachable!()
    }
}

/// The right to read a `Striped` value, which no thread changes meanwhile. Its drop releases the
/// lock.
#[derive(Drop)]
pub struct ReadGuard<'a, T> {
    lock: MutexGuard<'a, Owner<T>>,
    ghost filled: { ∥ IsSome (mutex_guard_value lock).value ∥₁ },
}

impl<'a, T> ReadGuard<'a, T> {
    // Reads behind a lock that has an owner of the value.
    #[inline(always)]
    pub(crate) fn of(lock: MutexGuard<'a, Owner<T>>) -> Option<ReadGuard<'a, T>> {
        if lock.value.is_none() {
            return None;
        }
        Some(ReadGuard { lock })
    }
}

impl<T> Deref for ReadGuard<'_, T> {
    type Target = T;

    ghost deref_gives = { λ _ _. ⊤ };

    #[inline(always)]
    fn deref(&self) -> &T {
        match &self.lock.value {
            Some(value) => value,
            None => unreachable!(),
        }
    }
}
