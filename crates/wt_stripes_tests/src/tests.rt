mod beside;
mod compare;
mod soak;
mod turns;

use std::sync::Wait;
use wt_stripes::Striped;

// 32 reads behind the main lock come before the one that opens the stripes.
const OPENING: usize = 33;

// Reads until the stripes are open.
fn open<T: Drop, R: Wait>(rt: &R, lock: &Striped<T>) {
    for _ in 0..OPENING {
        let _guard = lock.read(rt, 0);
    }
}
