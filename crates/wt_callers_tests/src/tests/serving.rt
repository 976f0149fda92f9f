// A service: what its threads return, and which settings are refused.
use super::at_once::all_come;
use super::compare::{holds, same};
use std::alloc::Global;
use std::sync::Wait;
use std::sync::atomic::{AtomicU64, Ordering};
use std::test::Fail;
use std::thread::Threads;
use wt_cache::{Caller, How, Keyed, Loader, Service, serve};
use wt_core::{Config, Weighs};
use wt_keys::{Answers, Fault, Field, Share};
use wt_shards::Books;

// A number that knows its key.
type Number = Keyed<u64, u64>;

// A source of tenfold numbers, which has none for the key 2, and counts its loads.
#[derive(Drop)]
struct Tens {
    loads: AtomicU64,
}

impl Tens {
    fn new() -> Tens {
        Tens {
            loads: AtomicU64::new(0),
        }
    }
}

impl Loader<u64, Number> for Tens {
    fn load(&self, key: &u64) -> Result<Number, u32> {
        let key = *key;
        self.loads.fetch_add(1, Ordering::SeqCst);
        if key == 2 {
            return Err(404);
        }
        let value = key.wrapping_mul(10);
        Ok(Keyed { key, value })
    }
}

impl Service<u64, Number> for &Tens {
    type Answer = (u64, How);

    // Gets its own number, and once more.
    fn work<B: Books, R: Wait>(
        &self,
        thread: usize,
        caller: &mut Caller<u64, Number, Self, B, R>,
    ) -> Result<(u64, How), Fault> {
        let key = thread as u64;
        caller.get(key, 0)?;
        let got = caller.get(key, 0)?;
        Ok((got.value.value, got.how))
    }
}

// The results of the threads.
type Returned = Vec<Result<(u64, How), Fault>>;

// Serves `threads` threads from `shards` shards of `entries` entries each.
fn served<R: Threads + Wait + Sync>(
    rt: &R,
    alloc: Global,
    entries: u32,
    shards: usize,
    threads: usize,
    tens: &Tens,
) -> Result<Returned, Fault> {
    serve(rt, alloc, &Config::of(entries), shards, threads, tens)
}

#[test]
fn serve_returns_what_each_thread_returned(rt: HostRuntime) -> Result<(), Fail> {
    for shards in [1, 2, 4] {
        let tens = Tens::new();
        let returned = served(&rt, rt.alloc(), 8, shards, 4, &tens)?;
        let hoped = [
            Ok((0, How::Hit)),
            Ok((10, How::Hit)),
            Err(Fault::LoadFailed { code: 404 }),
            Ok((30, How::Hit)),
        ];
        same(
            &rt,
            "what each thread returned",
            returned.as_slice(),
            hoped.as_slice(),
        );
        same(&rt, "how many loads", tens.loads.load(Ordering::SeqCst), 4);
    }
    let none = served(&rt, rt.alloc(), 8, 1, 0, &Tens::new())?;
    same(&rt, "no thread returned", none.len(), 0);
    Ok(())
}

// A service each of whose threads waits until all have come.
#[derive(Drop)]
struct Meeting {
    come: AtomicU64,
    threads: usize,
}

impl Loader<u64, Number> for Meeting {
    fn load(&self, key: &u64) -> Result<Number, u32> {
        let key = *key;
        Ok(Keyed { key, value: 0 })
    }
}

impl Service<u64, Number> for &Meeting {
    type Answer = bool;

    // Whether all have come.
    fn work<B: Books, R: Wait>(
        &self,
        _thread: usize,
        _caller: &mut Caller<u64, Number, Self, B, R>,
    ) -> Result<bool, Fault> {
        Ok(all_come(&self.come, self.threads))
    }
}

#[test]
fn threads_of_a_service_may_wait_for_each_other(rt: HostRuntime) -> Result<(), Fail> {
    for (shards, threads) in [(1, 2), (2, 3), (4, 8)] {
        let meeting = Meeting {
            come: AtomicU64::new(0),
            threads,
        };
        let met = serve(&rt, rt.alloc(), &Config::of(8), shards, threads, &meeting)?;
        same(&rt, "how many threads returned", met.len(), threads);
        for all in met {
            same(&rt, "whether all threads came", all, Ok(true));
        }
    }
    Ok(())
}

#[test]
fn serve_refuses_settings_out_of_their_range(rt: HostRuntime) -> Result<(), Fail> {
    let alloc = rt.alloc();
    let tens = Tens::new();
    let field = Field::Shards;
    let shards = served(&rt, alloc, 0, 3, 1, &tens);
    same(
        &rt,
        "three shards are refused",
        shards.err(),
        Some(Fault::BadConfig { field }),
    );
    let field = Field::Entries;
    let entries = served(&rt, alloc, 0, 1, 1, &tens);
    same(
        &rt,
        "no entries are refused",
        entries.err(),
        Some(Fault::BadConfig { field }),
    );
    same(
        &rt,
        "no load for a refused service",
        tens.loads.load(Ordering::SeqCst),
        0,
    );
    Ok(())
}

#[test]
fn a_keyed_value_answers_its_own_key(rt: HostRuntime) -> Result<(), Fail> {
    let kept: Number = Keyed { key: 7, value: 70 };
    same(&rt, "a share of the value", kept.share()?, kept);
    same(&rt, "the value's weight", kept.measure().weight, 1);
    holds(
        &rt,
        "it answers its own key alone",
        kept.answers(&7) && !kept.answers(&70),
    );
    Ok(())
}
