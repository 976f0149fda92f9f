// The counts of a tally, and its text.
use super::compare::same;
use std::test::Fail;
use wt_cache::{Got, How, Tally};
use wt_core::{Cause, Notice, Reply};
use wt_keys::Fault;
use wt_shards::Done;

fn left(cause: Cause) -> Notice<u64, u64> {
    let key = 1;
    let value = 2;
    Notice { key, value, cause }
}

// The notices of a call by which nothing left.
const NONE: [Notice<u64, u64>; 0] = [];

fn got(how: How) -> Result<Got<u64>, Fault> {
    let value = 2;
    let step = 1;
    Ok(Got { value, how, step })
}

fn replied(reply: Reply<u64>) -> Result<Done<Reply<u64>>, Fault> {
    let step = 1;
    Ok(Done { step, reply })
}

#[test]
fn a_tally_counts_gets_replies_faults_and_what_left(rt: HostRuntime) -> Result<(), Fail> {
    let mut tally = Tally::NOTHING;
    tally.count(&got(How::Hit), &NONE);
    tally.count(
        &got(How::Loaded),
        &[left(Cause::Expired), left(Cause::Size)],
    );
    tally.count(&got(How::Joined), &NONE);
    tally.count(&got(How::Refreshed), &[left(Cause::Replaced)]);
    tally.count(&replied(Reply::Loose(1)), &[left(Cause::Explicit)]);
    tally.count(&replied(Reply::Absent), &NONE);
    let refused: Result<Done<()>, Fault> = Err(Fault::TooManyFlights { limit: 1 });
    tally.count(&refused, &[left(Cause::Size)]);
    let wanted = Tally {
        hits: 2,
        misses: 3,
        joins: 1,
        refreshes: 1,
        loads: 2,
        loose: 1,
        failed: 0,
        explicit: 1,
        replaced: 1,
        expired: 1,
        size: 2,
        no_memory: 0,
        too_heavy: 0,
        too_many_flights: 1,
        other: 0,
    };
    same(&rt, "the tally", tally, wanted);
    Ok(())
}

#[test]
fn two_tallies_add_up_and_a_count_stays_at_its_greatest(rt: HostRuntime) -> Result<(), Fail> {
    let full = Tally {
        hits: u64::MAX,
        other: 1,
        ..Tally::NOTHING
    };
    let one = Tally {
        hits: 1,
        other: 2,
        ..Tally::NOTHING
    };
    let both = full.plus(&one);
    same(
        &rt,
        "hits, others and misses",
        (both.hits, both.other, both.misses),
        (u64::MAX, 3, 0),
    );
    Ok(())
}

// Each number is another one, so that none can stand for another.
const UNLIKE: Tally = Tally {
    hits: 1,
    misses: 2,
    joins: 3,
    refreshes: 4,
    loads: 5,
    loose: 6,
    failed: 7,
    explicit: 8,
    replaced: 9,
    expired: 10,
    size: 11,
    no_memory: 12,
    too_heavy: 13,
    too_many_flights: 14,
    other: 15,
};

#[test]
fn a_tally_is_a_line_of_names_and_numbers(rt: HostRuntime) -> Result<(), Fail> {
    let text = format!(in rt.alloc(); "{UNLIKE}")?;
    same(
        &rt,
        "the tally by Display",
        text.as_str(),
        "hits 1 misses 2 joins 3 refreshes 4 loads 5 loose 6 failed 7 explicit 8 replaced 9 \
         expired 10 size 11 no-memory 12 too-heavy 13 too-many-flights 14 other 15",
    );
    Ok(())
}
