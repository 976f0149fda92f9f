// Options out of their ranges.
use super::compare::{holds, same};
use super::{FIRST, four_but};
use std::test::*;
use wt_keys::{Fault, Field};
use wt_trace::{Options, ReplayFault, Tallied, replay};

// A field, a value, and whether it is in the field's range.
const ROWS: [(Field, u64, bool); 43] = [
    (Field::Entries, 0, false),
    (Field::Entries, 1, true),
    (Field::Entries, 65536, true),
    (Field::Entries, 65537, false),
    (Field::Shards, 0, false),
    (Field::Shards, 1, true),
    (Field::Shards, 2, true),
    (Field::Shards, 3, false),
    (Field::Shards, 4, true),
    (Field::Shards, 5, false),
    (Field::Window, 0, false),
    (Field::Window, 4, true),
    (Field::Window, 5, false),
    (Field::Bound, 0, false),
    (Field::Bound, 1 << 48, true),
    (Field::Bound, (1 << 48) + 1, false),
    (Field::Modulus, 0, false),
    (Field::Modulus, 1000000, true),
    (Field::Modulus, 1000001, false),
    (Field::AfterWrite, 0, false),
    (Field::AfterWrite, 1, true),
    (Field::AfterAccess, 0, false),
    (Field::AfterAccess, u64::MAX, true),
    (Field::Refresh, 0, false),
    (Field::Refresh, 1, true),
    (Field::FailMod, 0, false),
    (Field::FailMod, 1, true),
    (Field::Flights, 0, false),
    (Field::Flights, 4096, true),
    (Field::Flights, 4097, false),
    (Field::Ring, 32, false),
    (Field::Ring, 33, true),
    (Field::Ring, 65536, true),
    (Field::Ring, 65537, false),
    (Field::Threads, 64, true),
    (Field::Threads, 65, false),
    (Field::Turn, 1, true),
    (Field::Turn, 64, true),
    (Field::Turn, 65, false),
    (Field::Workers, 1, false),
    (Field::Adaptive, 0, true),
    (Field::Adaptive, 1, false),
    (Field::Adaptive, 2, false),
];

#[test]
fn a_window_may_follow_a_replay_of_any_kind(rt: HostRuntime) {
    for (threads, turn) in [(0, 0), (2, 0), (0, 2)] {
        let options = Options {
            entries: 64,
            threads,
            turn,
            adaptive: 1,
            ..Options::default()
        };
        same(&rt, "in its range", options.check(), Ok(()));
    }
}

#[test]
fn an_option_out_of_its_range_is_named_and_nothing_is_read(rt: HostRuntime) {
    same(
        &rt,
        "the defaults are in their ranges",
        Options::default().check(),
        Ok(()),
    );
    for (field, value, is_in_range) in ROWS {
        let options = four_but(field, value);
        if is_in_range {
            same(&rt, "a value in its range", options.check(), Ok(()));
            continue;
        }
        let outcome = Err(ReplayFault::Cache(Fault::BadConfig { field }));
        same(&rt, "a value out of its range", options.check(), outcome);
        let mut reader = Tallied::new(FIRST);
        let mut writer = Tallied::new(Vec::new(rt.alloc()));
        same(
            &rt,
            "the replay's fault",
            replay(rt.alloc(), &mut reader, &mut writer, &options),
            outcome,
        );
        same(
            &rt,
            "nothing is read",
            reader.into_inner().len(),
            FIRST.len(),
        );
        holds(&rt, "nothing is written", writer.into_inner().is_empty());
    }
}
