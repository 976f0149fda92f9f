// How many of a caller's reads the policy hears of. Each is a look, so a step.
use super::compare::same;
use super::lending::Number;
use std::sync::Wait;
use std::test::Fail;
use wt_cache::{Caller, Keyed, Loader, Service, serve};
use wt_core::Config;
use wt_keys::Fault;
use wt_shards::Books;

// A service that reads one key.
#[derive(Clone, Copy)]
struct Reads {}

impl Loader<u64, Number> for Reads {
    fn load(&self, key: &u64) -> Result<Number, u32> {
        let key = *key;
        Ok(Keyed { key, value: 0 })
    }
}

// Returns how many steps the caller's reads of key 1 make. A forget before them and one behind them
// tell the numbers; neither finds a load.
fn steps_of<B: Books, R: Wait>(
    caller: &mut Caller<u64, Number, Reads, B, R>,
    reads: u64,
) -> Result<u64, Fault> {
    let before = caller.forget(1, 0)?.step;
    for _ in 0..reads {
        caller.read(1, 0)?;
    }
    let after = caller.forget(1, 0)?.step;
    Ok(after.wrapping_sub(before).wrapping_sub(1))
}

impl Service<u64, Number> for Reads {
    type Answer = [u64; 4];

    // Reads the key before it is there, then while it is, and then once more after a miss.
    fn work<B: Books, R: Wait>(
        &self,
        _thread: usize,
        caller: &mut Caller<u64, Number, Reads, B, R>,
    ) -> Result<[u64; 4], Fault> {
        caller.read(1, 0)?;
        caller.put(1, Keyed { key: 1, value: 0 }, 0)?;
        let first = steps_of(caller, 8)?;
        let next = steps_of(caller, 1024)?;
        let seldom = steps_of(caller, 20_480)?;
        caller.read(2, 0)?;
        Ok([first, next, seldom, steps_of(caller, 8)?])
    }
}

// A look follows about one in 16 of the 1,024 hits, and one in 256 of the 20,480. The draws are
// always the same, so tools/model/sampler.py has the exact numbers.
#[test]
fn while_all_reads_hit_few_are_told(rt: HostRuntime) -> Result<(), Fail> {
    for shards in [1, 2, 4] {
        for told in serve(&rt, rt.alloc(), &Config::of(4), shards, 1, Reads {})? {
            same(&rt, "the looks behind reads", told, Ok([8, 71, 75, 8]));
        }
    }
    Ok(())
}
