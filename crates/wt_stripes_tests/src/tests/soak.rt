// Four threads that read and change a pair of equal numbers.
use super::compare::same;
use std::sync::Wait;
use std::test::Fail;
use std::thread;
use wt_stripes::Striped;

const TURNS: u64 = 20_000;

// How many turns a thread takes for each change that it makes. The reads between two changes are
// mostly enough to open the stripes.
const GAP: u64 = 40;

// Raises both numbers by one, the second behind the first.
fn raise<R: Wait>(rt: &R, lock: &Striped<(u64, u64)>) {
    let mut guard = lock.write(rt);
    let pair = guard.value(rt);
    pair.0 = pair.0.wrapping_add(1);
    thread::yield_now();
    pair.1 = pair.1.wrapping_add(1);
}

// A thread's turns. How often it read two numbers that weren't equal.
fn take_turns<R: Wait>(rt: &R, lock: &Striped<(u64, u64)>, stripe: usize) -> u64 {
    let mut torn: u64 = 0;
    for turn in 0..TURNS {
        if turn % GAP == 0 {
            raise(rt, lock);
        }
        let guard = lock.read(rt, stripe);
        let pair = &*guard;
        if pair.0 != pair.1 {
            torn = torn.wrapping_add(1);
        }
    }
    torn
}

#[test]
fn no_reader_meets_half_a_change(rt: HostRuntime) -> Result<(), Fail> {
    let lock = Striped::new(rt.alloc(), (0u64, 0u64))?;
    let (shared, place) = (&rt, &lock);
    let torn = thread::map_indices(
        shared,
        rt.alloc(),
        4,
        &|stripe: usize| { take_turns(shared, place, stripe) },
    )?;
    let torn = torn.iter().fold(0u64, |sum, more| sum.wrapping_add(*more));
    same(&rt, "halves of changes", torn, 0);
    // Each of four threads makes 500 changes.
    same(&rt, "taken out", lock.into_inner(&rt), (2_000, 2_000));
    Ok(())
}
