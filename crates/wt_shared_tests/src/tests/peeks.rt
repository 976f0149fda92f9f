// Peeks, which are no steps.
use super::compare::same;
use super::{LoadedCaller, first_left, limits, reply_to};
use std::process::Abort;
use std::test::Fail;
use wt_core::Cause;
use wt_shared::Caller;
use wt_tests::{Do, PlainReply, light};

// Peeks at key 1: at moment 9 its entry is there, at moment 10 it has expired.
fn expect_peeks(rt: &impl Abort, caller: &mut LoadedCaller) {
    same(rt, "a hit", caller.peek(1, 9), Ok(Some(light(6))));
    same(rt, "a miss", caller.peek(2, 9), Ok(None));
    same(rt, "an expired entry", caller.peek(1, 10), Ok(None));
}

#[test]
fn a_peek_is_no_step(rt: HostRuntime) -> Result<(), Fail> {
    let mut first: LoadedCaller = Caller::open(rt.alloc(), &limits(Some(10)))?;
    let mut second = first.another(rt.alloc())?;
    same(&rt, "an empty cache", first.peek(1, 0), Ok(None));
    for value in [light(5), light(6)] {
        same(
            &rt,
            "a put",
            reply_to(&mut first, Do::Put(value), 1, 0),
            Ok(PlainReply::Stored),
        );
    }
    expect_peeks(&rt, &mut first);
    expect_peeks(&rt, &mut second);
    // The notices and the numbers are those of the puts.
    same(
        &rt,
        "what left in the put",
        first_left(&first),
        (1, Some((1, light(5), Cause::Replaced))),
    );
    same(
        &rt,
        "the numbers",
        (first.number(), second.number()),
        (2, 0),
    );
    // No peek is a use: the entry expires ten milliseconds after it was put. None has a number.
    same(
        &rt,
        "the look",
        reply_to(&mut second, Do::Look, 1, 10),
        Ok(PlainReply::Absent),
    );
    same(&rt, "its number", second.number(), 3);
    Ok(())
}
