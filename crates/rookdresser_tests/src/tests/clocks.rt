// When entries expire, by a clock that a test moves by hand.
use super::compare::{holds, same};
use super::{Number, number, tenfold};
use rookdresser::{Cache, Clock, Config, Fault, Keyed, Loader, Monotonic, Service, World, serve};
use std::alloc::Global;
use std::sync::Wait;
use std::sync::atomic::{AtomicU64, Ordering};
use std::test::Fail;
use std::thread::Threads;

// A thread puts a value at the first moment, and looks it up at each of the others.
#[derive(Drop)]
struct Looks<'c> {
    clock: &'c AtomicU64,
    first: u64,
    others: [u64; 3],
}

impl<'c> Loader<u64, Number> for Looks<'c> {
    fn load(&self, key: &u64) -> Result<Number, u32> {
        let key = *key;
        Ok(Keyed {
            key,
            value: tenfold(key),
        })
    }
}

impl<'c> Service<u64, Number> for Looks<'c> {
    // Whether the value was there.
    type Answer = [bool; 3];

    fn work<W: World<u64, Number>>(
        &self,
        _thread: usize,
        cache: &mut Cache<u64, Number, W>,
    ) -> Result<[bool; 3], Fault> {
        self.clock.store(self.first, Ordering::SeqCst);
        cache.put(1, number(1, 10))?;
        let mut found = [false; 3];
        for (place, moment) in found.iter_mut().zip(self.others.iter()) {
            self.clock.store(*moment, Ordering::SeqCst);
            *place = cache.look(1)?.is_some();
        }
        Ok(found)
    }
}

// Whether a value that lives for 10 ms, put at the first moment, is there at each of the others.
fn found<R: Threads + Wait + Sync>(
    rt: &R,
    alloc: Global,
    first: u64,
    others: [u64; 3],
) -> Result<Vec<Result<[bool; 3], Fault>>, Fault> {
    let clock = AtomicU64::new(0);
    let config = Config::of(8).with_after_write(10);
    let looks = Looks {
        clock: &clock,
        first,
        others,
    };
    Ok(serve(rt, alloc, &config, 1, 1, &looks, &clock)?.answers)
}

#[test]
fn an_entry_expires_by_the_clock(rt: HostRuntime) -> Result<(), Fail> {
    let there = found(&rt, rt.alloc(), 100, [100, 109, 110])?;
    same(&rt, "there", there.as_slice(), &[Ok([true, true, false])]);
    Ok(())
}

#[test]
fn a_clock_that_runs_back_makes_no_entry_older(rt: HostRuntime) -> Result<(), Fail> {
    let there = found(&rt, rt.alloc(), 100, [50, 109, 110])?;
    same(&rt, "there", there.as_slice(), &[Ok([true, true, false])]);
    let there = found(&rt, rt.alloc(), 100, [105, 0, 110])?;
    same(&rt, "again", there.as_slice(), &[Ok([true, true, false])]);
    Ok(())
}

#[test]
fn clocks_show_moments(rt: HostRuntime) -> Result<(), Fail> {
    let ticks = Monotonic::of(&rt);
    let first = ticks.moment();
    holds(&rt, "it doesn't run back", first <= ticks.moment());
    same(&rt, "it stands still", 7u64.moment(), 7);
    same(&rt, "it is moved by hand", AtomicU64::new(9).moment(), 9);
    Ok(())
}
