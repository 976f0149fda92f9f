// Two callers of one cache, in turn on one thread: each finds what the other one left, and no call is
// busy.
use super::compare::same;
use super::{LoadedCaller, first_left, limits, reply_to};
use std::process::Abort;
use std::test::Fail;
use wt_core::Cause;
use wt_keys::Fault;
use wt_shared::Caller;
use wt_tests::{Do, Loaded, PlainReply, light};

// Whether the second caller makes the call, the call on a key at a moment, its reply, and the number
// that its caller then has.
type Row = (bool, Do, u64, u64, PlainReply, u64);

fn expect_row(rt: &impl Abort, first: &mut LoadedCaller, second: &mut LoadedCaller, row: &Row) {
    let (by_second, act, key, now, reply, number) = *row;
    let got = if by_second {
        reply_to(second, act, key, now)
    } else {
        reply_to(first, act, key, now)
    };
    same(rt, "the reply", got, Ok(reply));
    let at = if by_second {
        second.number()
    } else {
        first.number()
    };
    same(rt, "the number", at, number);
}

fn expect_rows(rt: &impl Abort, first: &mut LoadedCaller, second: &mut LoadedCaller, rows: &[Row]) {
    for row in rows {
        expect_row(rt, first, second, row);
    }
}

#[test]
fn two_callers_in_turn_have_one_cache(rt: HostRuntime) -> Result<(), Fail> {
    let heavy = Loaded {
        weight: 11,
        ..light(7)
    };
    let fault = Fault::TooHeavy {
        weight: 11,
        bound: 10,
    };
    let rows = [
        (false, Do::Seek, 1, 0, PlainReply::Lead(1), 1),
        (true, Do::Seek, 1, 0, PlainReply::Join(1), 2),
        (true, Do::Keep(1, light(5)), 1, 3, PlainReply::Kept(2), 3),
        (false, Do::Look, 1, 4, PlainReply::Hit(light(5)), 4),
        (false, Do::Put(light(6)), 1, 5, PlainReply::Stored, 5),
        // A call that the cache refuses has a number too.
        (true, Do::Put(heavy), 2, 6, PlainReply::Refused(fault), 6),
        (true, Do::DropKey, 1, 7, PlainReply::Dropped(true), 7),
    ];
    let mut first: LoadedCaller = Caller::open(rt.alloc(), &limits(None))?;
    let mut second = first.another(rt.alloc())?;
    same(
        &rt,
        "the first number",
        (first.number(), second.number()),
        (0, 0),
    );
    expect_rows(&rt, &mut first, &mut second, &rows);
    // Each caller has the notices of its own latest call, whatever the other one did since.
    same(
        &rt,
        "what left in the put",
        first_left(&first),
        (1, Some((1, light(5), Cause::Replaced))),
    );
    same(
        &rt,
        "what left in the removal",
        first_left(&second),
        (1, Some((1, light(6), Cause::Explicit))),
    );
    expect_row(
        &rt,
        &mut first,
        &mut second,
        &(false, Do::Look, 1, 8, PlainReply::Absent, 8),
    );
    same(&rt, "what left in the look", first_left(&first), (0, None));
    Ok(())
}

#[test]
fn the_cache_stays_while_it_has_a_caller(rt: HostRuntime) -> Result<(), Fail> {
    let mut first: LoadedCaller = Caller::open(rt.alloc(), &limits(None))?;
    same(
        &rt,
        "the put",
        reply_to(&mut first, Do::Put(light(5)), 1, 0),
        Ok(PlainReply::Stored),
    );
    let mut second = first.another(rt.alloc())?;
    drop(first);
    // A new caller has no notices and no number, and its first call follows those of the other one.
    same(
        &rt,
        "the new caller",
        (second.number(), first_left(&second)),
        (0, (0, None)),
    );
    same(
        &rt,
        "the look",
        reply_to(&mut second, Do::Look, 1, 0),
        Ok(PlainReply::Hit(light(5))),
    );
    same(&rt, "its number", second.number(), 2);
    Ok(())
}
