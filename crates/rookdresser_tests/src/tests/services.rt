// A service: what its threads return, and which settings are refused.
use super::compare::same;
use super::{Number, tenfold};
use rookdresser::{Cache, Config, Fault, Keyed, Loader, Served, Service, Tally, World, serve};
use std::alloc::Global;
use std::sync::Wait;
use std::sync::atomic::{AtomicU64, Ordering};
use std::test::Fail;
use std::thread::Threads;
use wt_keys::Field;

// A source of tenfold numbers, which has none for the key 2, and counts its loads. Each thread gets its own number at the moments
// 0 and 1.
#[derive(Drop)]
struct Tens {
    loads: AtomicU64,
}

impl Tens {
    fn new() -> Tens {
        Tens {
            loads: AtomicU64::new(0),
        }
    }

    fn loads(&self) -> u64 {
        self.loads.load(Ordering::SeqCst)
    }
}

impl Loader<u64, Number> for Tens {
    fn load(&self, key: &u64) -> Result<Number, u32> {
        let key = *key;
        self.loads.fetch_add(1, Ordering::SeqCst);
        if key == 2 {
            return Err(404);
        }
        Ok(Keyed {
            key,
            value: tenfold(key),
        })
    }
}

impl Service<u64, Number> for Tens {
    type Answer = u64;

    fn work<W: World<u64, Number>>(
        &self,
        thread: usize,
        cache: &mut Cache<u64, Number, W>,
    ) -> Result<u64, Fault> {
        let key = thread as u64;
        cache.get(key)?;
        Ok(cache.get_at(key, 1)?.value)
    }
}

// Serves `threads` threads. Their clock stands still at 0.
fn served<R: Threads + Wait + Sync>(
    rt: &R,
    alloc: Global,
    config: &Config,
    shards: usize,
    threads: usize,
    tens: &Tens,
) -> Result<Served<u64>, Fault> {
    serve(rt, alloc, config, shards, threads, tens, &0)
}

#[test]
fn each_thread_gets_its_number_by_one_load(rt: HostRuntime) -> Result<(), Fail> {
    for (shards, entries) in [(1, 8), (2, 512), (4, 600)] {
        let tens = Tens::new();
        let config = Config::of(entries);
        let returned = served(&rt, rt.alloc(), &config, shards, 4, &tens)?;
        let failed = Fault::LoadFailed { code: 404 };
        let hoped = [Ok(0), Ok(10), Err(failed), Ok(30)];
        same(&rt, "what they return", returned.answers.as_slice(), &hoped);
        same(&rt, "how many loads", tens.loads(), 4);
        let tally = Tally {
            hits: 3,
            misses: 3,
            loads: 3,
            failed: 1,
            ..Tally::NOTHING
        };
        same(&rt, "what the calls met", returned.tally, tally);
    }
    Ok(())
}

#[test]
fn a_get_loads_a_due_value_anew(rt: HostRuntime) -> Result<(), Fail> {
    for (refresh, loads) in [(1, 2), (2, 1)] {
        let tens = Tens::new();
        let config = Config::of(8).with_refresh(refresh);
        let returned = served(&rt, rt.alloc(), &config, 1, 1, &tens)?;
        same(
            &rt,
            "what it returns",
            returned.answers.as_slice(),
            &[Ok(0)],
        );
        same(&rt, "how many loads", tens.loads(), loads);
    }
    Ok(())
}

// Which field is refused.
fn refused<R: Threads + Wait + Sync>(
    rt: &R,
    alloc: Global,
    config: &Config,
    shards: usize,
) -> Option<Fault> {
    served(rt, alloc, config, shards, 1, &Tens::new()).err()
}

#[test]
fn the_first_setting_out_of_range_is_refused(rt: HostRuntime) -> Result<(), Fail> {
    let alloc = rt.alloc();
    for (shards, entries, field) in [
        (3, 0, Field::Shards),
        (1, 0, Field::Entries),
        (1, 65_537, Field::Entries),
    ] {
        let fault = Some(Fault::BadConfig { field });
        let got = refused(&rt, alloc, &Config::of(entries), shards);
        same(&rt, "the fault", (entries, got), (entries, fault));
    }
    Ok(())
}
