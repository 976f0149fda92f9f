// Readers beside each other, and beside a change. Each test ends whatever the lock does, since
// nobody holds it for ever.
use super::compare::same;
use super::open;
use std::sync::Wait;
use std::sync::atomic::{AtomicU32, Ordering};
use std::test::Fail;
use std::thread;
use wt_stripes::Striped;

// Whether the count comes to the number, with a limit that no right lock comes near.
fn comes_to(count: &AtomicU32, number: u32) -> bool {
    for _ in 0..2_000_000 {
        if count.load(Ordering::SeqCst) >= number {
            return true;
        }
        thread::yield_now();
    }
    false
}

// Reads at a stripe, and keeps the value until two readers have it. Whether they had it at once.
fn meets<R: Wait>(rt: &R, lock: &Striped<u64>, stripe: usize, readers: &AtomicU32) -> bool {
    let guard = lock.read(rt, stripe);
    readers.fetch_add(1, Ordering::SeqCst);
    let met = comes_to(readers, 2);
    drop(guard);
    met
}

#[test]
fn readers_of_two_stripes_have_the_value_at_once(rt: HostRuntime) -> Result<(), Fail> {
    let lock = Striped::new(rt.alloc(), 5u64)?;
    open(&rt, &lock);
    let readers = AtomicU32::new(0);
    let (shared, lock, readers) = (&rt, &lock, &readers);
    let met = thread::join(
        shared,
        move || meets(shared, lock, 0, readers),
        move || meets(shared, lock, 3, readers),
    );
    same(&rt, "both had it at once", met, (true, true));
    Ok(())
}

// Changes the value once a reader has it.
fn changes<R: Wait>(rt: &R, lock: &Striped<u64>, reads: &AtomicU32, changed: &AtomicU32) {
    comes_to(reads, 1);
    *lock.write(rt).value(rt) = 6;
    changed.fetch_add(1, Ordering::SeqCst);
}

// Reads, and lets the other thread run meanwhile. What was read, and how often it changed before
// the guard went.
fn reads<R: Wait>(
    rt: &R,
    lock: &Striped<u64>,
    reads: &AtomicU32,
    changed: &AtomicU32,
) -> (u64, u32) {
    let guard = lock.read(rt, 2);
    reads.fetch_add(1, Ordering::SeqCst);
    for _ in 0..20_000 {
        thread::yield_now();
    }
    (*guard, changed.load(Ordering::SeqCst))
}

#[test]
fn a_change_waits_for_the_readers_of_stripes(rt: HostRuntime) -> Result<(), Fail> {
    let lock = Striped::new(rt.alloc(), 5u64)?;
    open(&rt, &lock);
    let (begun, changed) = (AtomicU32::new(0), AtomicU32::new(0));
    let (shared, place, begun, changed) = (&rt, &lock, &begun, &changed);
    let (read, ()) = thread::join(
        shared,
        move || reads(shared, place, begun, changed),
        move || changes(shared, place, begun, changed),
    );
    same(&rt, "read, and the changes meanwhile", read, (5, 0));
    same(&rt, "changed", *lock.read(&rt, 2), 6);
    Ok(())
}
