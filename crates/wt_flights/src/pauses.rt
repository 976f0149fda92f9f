// How a caller that has to wait for another thread passes its time before it sleeps.
use std::sync::atomic::{AtomicU64, Ordering};

/// How often a caller looks again before it sleeps. Ours.
///
/// The pauses of 32 looks are 3,327 atomic steps together: some 20 microseconds if a step takes 6
/// nanoseconds. Going to sleep and being woken takes about as long.
pub const LOOKS: u32 = 32;

// The pause before a look doubles from one atomic step up to two to the power of this many. Ours.
const LONGEST_PAUSE: u32 = 7;

/// Passes the time before the look of number `turn`, which counts from 0. Takes no memory and no
/// lock.
#[inline]
pub fn pause(turn: u32) {
    // The compiler drops `spin_loop` and an empty loop. It keeps atomic steps, and since this word
    // is the caller's own, nobody else waits for its cache line.
    let steps = AtomicU64::new(0);
    for _ in 0..1u32 << turn.min(LONGEST_PAUSE) {
        steps.fetch_add(1, Ordering::SeqCst);
    }
}
