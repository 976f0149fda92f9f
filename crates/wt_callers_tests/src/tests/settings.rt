// A service's cache is the one that was asked for: its shards, its entries, how long it keeps a
// value, and how many loads may be open.
use super::at_once::all_come;
use super::compare::same;
use super::lending::Number;
use std::alloc::Global;
use std::sync::Wait;
use std::sync::atomic::{AtomicU64, Ordering};
use std::test::Fail;
use std::thread::Threads;
use wt_cache::{Caller, How, Keyed, Loader, Service, serve};
use wt_core::Config;
use wt_keys::Fault;
use wt_shards::Books;

// A service that asks for values just before they reach an age, and at that age.
#[derive(Clone, Copy)]
struct Ages {
    age: u64,
}

impl Loader<u64, Number> for Ages {
    fn load(&self, key: &u64) -> Result<Number, u32> {
        let key = *key;
        Ok(Keyed { key, value: 0 })
    }
}

// The number of shards, the entries of one, and how the younger and the older value are got.
type Found = (usize, u32, How, How);

impl Service<u64, Number> for Ages {
    type Answer = Found;

    // Puts two values at the moment 0, and gets one a millisecond before the age, the other then.
    fn work<B: Books, R: Wait>(
        &self,
        _thread: usize,
        caller: &mut Caller<u64, Number, Ages, B, R>,
    ) -> Result<Found, Fault> {
        caller.put(1, Keyed { key: 1, value: 0 }, 0)?;
        caller.put(2, Keyed { key: 2, value: 0 }, 0)?;
        let younger = caller.get(1, self.age.wrapping_sub(1))?.how;
        let older = caller.get(2, self.age)?.how;
        let cache = caller.cache();
        Ok((cache.shards(), cache.entries(), younger, older))
    }
}

// What one thread finds.
fn found<R: Threads + Wait + Sync>(
    rt: &R,
    alloc: Global,
    config: &Config,
    shards: usize,
    age: u64,
) -> Result<Option<Result<Found, Fault>>, Fault> {
    let mut found = None;
    for answer in serve(rt, alloc, config, shards, 1, Ages { age })? {
        found = Some(answer);
    }
    Ok(found)
}

#[test]
fn the_cache_of_a_service_is_the_one_asked_for(rt: HostRuntime) -> Result<(), Fail> {
    let cases = [
        (Config::of(8), 1 << 63, How::Hit),
        (Config::of(9).with_after_write(100), 100, How::Loaded),
        (Config::of(10).with_after_access(200), 200, How::Loaded),
        (Config::of(11).with_refresh(300), 300, How::Refreshed),
    ];
    for (config, age, older) in cases {
        for shards in [1, 2, 4] {
            same(
                &rt,
                "the shards, the entries, and two gets",
                found(&rt, rt.alloc(), &config, shards, age)?,
                Some(Ok((shards, config.entries, How::Hit, older))),
            );
        }
    }
    Ok(())
}

// Keys of one shard, be it of two or of four.
const KEYS: [u64; 5] = [2, 6, 10, 14, 18];

// A service whose loads end once each thread has begun a load, or was refused one.
#[derive(Drop)]
struct Crowd {
    come: AtomicU64,
}

impl Loader<u64, Number> for Crowd {
    fn load(&self, key: &u64) -> Result<Number, u32> {
        let key = *key;
        if all_come(&self.come, KEYS.len()) {
            Ok(Keyed { key, value: 0 })
        } else {
            Err(99)
        }
    }
}

impl Service<u64, Number> for &Crowd {
    type Answer = How;

    // Gets a key of the one shard.
    fn work<B: Books, R: Wait>(
        &self,
        thread: usize,
        caller: &mut Caller<u64, Number, Self, B, R>,
    ) -> Result<How, Fault> {
        let Some(key) = KEYS.get(thread) else {
            return Err(Fault::Mixed);
        };
        let got = caller.get(*key, 0);
        if got.is_err() {
            self.come.fetch_add(1, Ordering::SeqCst);
        }
        Ok(got?.how)
    }
}

// How many threads loaded a value, and how many were refused a load at this limit.
fn counted<R: Threads + Wait + Sync>(
    rt: &R,
    alloc: Global,
    limit: u32,
    shards: usize,
) -> Result<(u32, u32), Fault> {
    let crowd = Crowd {
        come: AtomicU64::new(0),
    };
    let config = Config::of(8).with_flights(limit);
    let (mut loaded, mut refused) = (0u32, 0u32);
    for answer in serve(rt, alloc, &config, shards, KEYS.len(), &crowd)? {
        if answer == Ok(How::Loaded) {
            loaded = loaded.wrapping_add(1);
        } else if answer == Err(Fault::TooManyFlights { limit }) {
            refused = refused.wrapping_add(1);
        }
    }
    Ok((loaded, refused))
}

#[test]
fn a_service_may_have_as_many_loads_open_as_asked_for(rt: HostRuntime) -> Result<(), Fail> {
    for shards in [1, 2, 4] {
        for (limit, refused) in [(1, 4), (3, 2), (5, 0)] {
            same(
                &rt,
                "threads that load, and that are refused",
                counted(&rt, rt.alloc(), limit, shards)?,
                (limit, refused),
            );
        }
    }
    Ok(())
}
