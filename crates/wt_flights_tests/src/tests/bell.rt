// The bell, in the schedules that are hardest to meet by chance. Each test ends whatever the body
// under test does: a waiter that isn't woken as it should be is woken by the test, after a long
// time.
use super::Version;
use super::compare::{holds, same};
use std::sync::Wait;
use std::sync::atomic::{AtomicU32, Ordering};
use std::test::Fail;
use std::thread;
use wt_flights::{Landing, Lead, Outcome, Publish, Ticket};
use wt_keys::Answers;

const SEVENTH: Version = Version { key: 9, number: 7 };

// Lets other threads run for a while: long enough, mostly, for one to come to its next stop.
fn let_others_run() {
    for _ in 0..20_000 {
        thread::yield_now();
    }
}

// Whether the count comes to the number, with a limit that no right body comes near.
fn comes_to(count: &AtomicU32, number: u32) -> bool {
    for _ in 0..2_000_000 {
        if count.load(Ordering::SeqCst) >= number {
            return true;
        }
        thread::yield_now();
    }
    false
}

// Waits, and counts that it begins to and that it returned.
fn wait_counted<R: Wait>(
    rt: &R,
    mut ticket: Ticket<u64, Version>,
    begun: &AtomicU32,
    returned: &AtomicU32,
) -> Option<Version> {
    begun.fetch_add(1, Ordering::SeqCst);
    let told = ticket.wait(rt);
    returned.fetch_add(1, Ordering::SeqCst);
    match told {
        Ok(Outcome::Value(value)) => Some(value),
        _ => None,
    }
}

// Publishes the value, and answers a ticket.
fn published(lead: Lead<u64, Version>) -> Option<Ticket<u64, Version>> {
    let outcome = Outcome::Value(SEVENTH);
    if !outcome.answers(&lead.key()) {
        return None;
    }
    match lead.publish(outcome) {
        Publish::Published(ticket) => Some(ticket),
        Publish::Already(_) => None,
    }
}

// Wakes a waiter that still sleeps, so that the test ends.
fn rescue(landing: &Landing<u64, Version>, returned: &AtomicU32, number: u32) {
    for _ in 0..1_000_000 {
        if returned.load(Ordering::SeqCst) >= number {
            return;
        }
        landing.rung.notify_all();
        thread::yield_now();
    }
}

// The moment is one of 13 digits, as a clock of the day gives it.
#[test]
fn one_ring_wakes_all_who_sleep(rt: HostRuntime) -> Result<(), Fail> {
    let today = 1_700_000_000_000;
    let (landing, lead) = Landing::<u64, Version>::start(rt.alloc(), 5, 9, today)?;
    let one = Ticket::of(&landing)?;
    let two = Ticket::of(&landing)?;
    let (begun, returned) = (AtomicU32::new(0), AtomicU32::new(0));
    let (shared, place) = (&rt, &landing);
    let (begun, returned) = (&begun, &returned);
    let (woken, told) = thread::join(
        shared,
        move || {
            let gate = place.gate.lock(shared);
            comes_to(begun, 2);
            drop(gate);
            let_others_run();
            if let Some(ticket) = published(lead) {
                ticket.ring(shared);
            }
            let woken = comes_to(returned, 2);
            rescue(place, returned, 2);
            woken
        },
        move || {
            thread::join(
                shared,
                move || wait_counted(shared, one, begun, returned),
                move || wait_counted(shared, two, begun, returned),
            )
        },
    );
    holds(&rt, "both who sleep are woken", woken);
    same(
        &rt,
        "what both were told",
        told,
        (Some(SEVENTH), Some(SEVENTH)),
    );
    Ok(())
}

#[test]
fn who_waits_looks_under_the_bells_lock(rt: HostRuntime) -> Result<(), Fail> {
    let (landing, lead) = Landing::<u64, Version>::start(rt.alloc(), 5, 9, 0)?;
    let one = Ticket::of(&landing)?;
    let (begun, returned) = (AtomicU32::new(0), AtomicU32::new(0));
    let (shared, place) = (&rt, &landing);
    let (begun, returned) = (&begun, &returned);
    let (woken, told) = thread::join(
        shared,
        move || {
            // The waiter comes to the lock, and all that it is told comes before it has it.
            let gate = place.gate.lock(shared);
            begun.fetch_add(1, Ordering::SeqCst);
            comes_to(begun, 2);
            let_others_run();
            drop(published(lead));
            place.rung.notify_all();
            drop(gate);
            let woken = comes_to(returned, 1);
            rescue(place, returned, 1);
            woken
        },
        move || {
            comes_to(begun, 1);
            wait_counted(shared, one, begun, returned)
        },
    );
    holds(&rt, "an outcome published before the wait is seen", woken);
    same(&rt, "what the waiter was told", told, Some(SEVENTH));
    Ok(())
}

#[test]
fn the_bell_is_rung_under_its_lock(rt: HostRuntime) -> Result<(), Fail> {
    let (landing, lead) = Landing::<u64, Version>::start(rt.alloc(), 5, 9, 0)?;
    let ticket = lead.ticket()?;
    let (begun, rung) = (AtomicU32::new(0), AtomicU32::new(0));
    let (shared, place) = (&rt, &landing);
    let (begun, rung) = (&begun, &rung);
    let (rung_when, ()) = thread::join(
        shared,
        move || {
            let gate = place.gate.lock(shared);
            begun.fetch_add(1, Ordering::SeqCst);
            comes_to(begun, 2);
            let_others_run();
            let early = rung.load(Ordering::SeqCst);
            drop(gate);
            (early, comes_to(rung, 1))
        },
        move || {
            comes_to(begun, 1);
            begun.fetch_add(1, Ordering::SeqCst);
            ticket.ring(shared);
            rung.fetch_add(1, Ordering::SeqCst);
        },
    );
    same(
        &rt,
        "rings that returned under the lock, and that one returned",
        rung_when,
        (0, true),
    );
    Ok(())
}
