// How a lock is taken.
use std::sync::{Mutex, MutexGuard, Wait};
use wt_flights::{LOOKS, pause};

// Takes a lock. What is done under it takes less time than going to sleep and being woken, and once
// a caller sleeps each release of the lock is a call of the system. So a caller that finds the lock
// held tries again, after pauses that grow, and sleeps only if all tries fail.
#[inline(always)]
pub(crate) fn hold<'a, T, R: Wait>(rt: &R, lock: &'a Mutex<T>) -> MutexGuard<'a, T> {
    if let Some(guard) = lock.try_lock() {
        return guard;
    }
    for turn in 0..LOOKS {
        pause(turn);
        if let Some(guard) = lock.try_lock() {
            return guard;
        }
    }
    lock.lock(rt)
}
