// The parts that regions are made with: limits, values that weigh, and room for notices.
use super::compare::{holds, same};
use super::{Run, caps};
use std::test::Fail;
use wt_keys::{Fault, Field, Shared};
use wt_regions::{Caps, Cause, Notices, Regions, Weighs};
use wt_tests::Loaded;

#[test]
fn the_first_field_out_of_range_is_named(rt: HostRuntime) -> Result<(), Fail> {
    let fine = caps(4, 1, 1000);
    for (limits, field) in [
        (caps(0, 0, 0), Field::Entries),
        (caps(65_537, 1, 1), Field::Entries),
        (caps(4, 0, 0), Field::Window),
        (caps(4, 5, 1), Field::Window),
        (caps(4, 1, 0), Field::Bound),
        (caps(4, 1, 281_474_976_710_657), Field::Bound),
        (
            Caps {
                after_write: Some(0),
                after_access: Some(0),
                ..fine
            },
            Field::AfterWrite,
        ),
        (
            Caps {
                after_access: Some(0),
                refresh: Some(0),
                ..fine
            },
            Field::AfterAccess,
        ),
        (
            Caps {
                refresh: Some(0),
                ..fine
            },
            Field::Refresh,
        ),
    ] {
        match Regions::<u64, Loaded>::new(rt.alloc(), &limits) {
            Ok(_) => panic!(rt; "out of range, and yet made"),
            Err(fault) => same(
                &rt,
                "the first field out of range",
                fault,
                Fault::BadConfig { field },
            ),
        }
    }
    for (entries, window) in [(1, 1), (65_536, 1), (65_536, 65_536)] {
        let limits = caps(entries, window, 281_474_976_710_656);
        let regions = Regions::<u64, Loaded>::new(rt.alloc(), &limits)?;
        same(&rt, "a new one holds nothing", regions.len(), 0);
    }
    Ok(())
}

const VALUE: Loaded = Loaded {
    version: 1,
    weight: 7,
    life: 0,
};

fn heft<V: Weighs>(value: &V) -> u32 {
    value.measure().weight
}

#[test]
fn a_shared_value_weighs_as_its_value(rt: HostRuntime) -> Result<(), Fail> {
    same(
        &rt,
        "the weight of a shared value",
        heft(&Shared::new(rt.alloc(), VALUE)?),
        7,
    );
    for (cause, evicted) in [
        (Cause::Explicit, false),
        (Cause::Replaced, false),
        (Cause::Expired, true),
        (Cause::Size, true),
    ] {
        same(
            &rt,
            "whether a cause is an eviction",
            cause.was_evicted(),
            evicted,
        );
    }
    Ok(())
}

#[test]
fn notices_of_no_room_are_made(rt: HostRuntime) -> Result<(), Fail> {
    let none: Notices<u64, Loaded> = Notices::new(rt.alloc(), 0)?;
    holds(
        &rt,
        "room for no notice",
        none.has_room(0) && !none.has_room(1),
    );
    holds(&rt, "no notice in it", none.list().is_empty());
    Ok(())
}

#[test]
fn a_notice_takes_room(rt: HostRuntime) -> Result<(), Fail> {
    let mut run = Run::new(rt.alloc(), caps(4, 1, 1000))?;
    run.put(1, VALUE, 0)?;
    same(&rt, "a removal", run.remove(1, 0), true);
    let room = (run.notices.has_room(3), run.notices.has_room(4));
    same(
        &rt,
        "room for three notices and for four",
        room,
        (true, false),
    );
    Ok(())
}
