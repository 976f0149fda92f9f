// The numbers of a cache, which are all of one moment and no step.
use super::compare::{holds, same};
use super::{LoadedCaller, first_left, limits, reply_to};
use std::test::Fail;
use wt_core::{Cause, Stats};
use wt_shared::{Caller, Numbers};
use wt_tests::{Do, light};

#[test]
fn numbers_are_of_one_moment(rt: HostRuntime) -> Result<(), Fail> {
    let mut first: LoadedCaller = Caller::open(rt.alloc(), &limits(None))?;
    let mut second = first.another(rt.alloc())?;
    for value in [light(5), light(6)] {
        let put = reply_to(&mut first, Do::Put(value), 1, 0);
        holds(&rt, "a put", put.is_ok());
    }
    for (act, key, now) in [(Do::Look, 1, 3), (Do::Look, 2, 4), (Do::Seek, 2, 5)] {
        let call = reply_to(&mut second, act, key, now);
        holds(&rt, "a call", call.is_ok());
    }
    // A hit, a miss, and a load that is open. Nothing was evicted: the first value was replaced.
    let stats = Stats {
        lookups: 3,
        hits: 1,
        misses: 2,
        loads: 0,
        failed: 0,
        evicted: 0,
        entries: 1,
        weight: 1,
    };
    let numbers = Numbers {
        stats,
        step: 5,
        latest: 5,
        flights: 1,
    };
    same(&rt, "the second", second.numbers(), Ok(numbers));
    same(&rt, "the first", first.numbers(), Ok(numbers));
    // The notices and the numbers of the calls stay.
    same(
        &rt,
        "what left in the put",
        first_left(&first),
        (1, Some((1, light(5), Cause::Replaced))),
    );
    same(
        &rt,
        "the numbers of the calls",
        (first.number(), second.number()),
        (2, 5),
    );
    Ok(())
}
