// The greatest sizes: the most entries, and the most open loads. More calls in a run, and more
// sharers of a load, than any limit of a cache.
use super::compare::{holds, same};
use super::{Run, config, reply_to};
use std::alloc::Global;
use std::process::Abort;
use std::test::Fail;
use wt_core::{Call, Config, Region, Reply, run_calls};
use wt_keys::Fault;
use wt_tests::{Do, Loaded, PlainReply, light};

fn hold_all(rt: &impl Abort, run: &mut Run<Loaded>) {
    same(
        rt,
        "how many entries may be held",
        run.core.entries(),
        65536,
    );
    for key in 0..65536u64 {
        let made = reply_to(run, Do::Put(light(key)), key, 0);
        same(rt, "the reply to a put", made, Some(PlainReply::Stored));
        holds(rt, "no notice of a put", run.notices.list().is_empty());
    }
    same(
        rt,
        "entries and weight when full",
        (run.core.len(), run.core.weight()),
        (65536, 65536),
    );
    for key in [0, 1, 40_000, 65_535] {
        let made = reply_to(run, Do::Look, key, 0);
        same(
            rt,
            "a look in the full cache",
            made,
            Some(PlainReply::Hit(light(key))),
        );
    }
}

// One more comes, and one leaves; then all do.
fn let_go(rt: &impl Abort, run: &mut Run<Loaded>) {
    let made = reply_to(run, Do::Put(light(1)), 65536, 0);
    same(
        rt,
        "the reply to one more put",
        made,
        Some(PlainReply::Stored),
    );
    same(
        rt,
        "one notice of one more put",
        run.notices.list().len(),
        1,
    );
    same(
        rt,
        "how many entries after one more put",
        run.core.len(),
        65536,
    );
    let made = reply_to(run, Do::Clear, 0, 0);
    same(rt, "the reply to a clear", made, Some(PlainReply::Cleared));
    same(
        rt,
        "how many notices of a clear",
        run.notices.list().len(),
        65536,
    );
    holds(rt, "it is empty after a clear", run.core.is_empty());
}

#[test]
fn as_many_entries_are_held_as_may_be(rt: HostRuntime) -> Result<(), Fail> {
    let mut run: Run<Loaded> = Run::new(rt.alloc(), &config(65536, 655, 1 << 48))?;
    hold_all(&rt, &mut run);
    let_go(&rt, &mut run);
    Ok(())
}

fn open_and_land_all(rt: &impl Abort, run: &mut Run<Loaded>) {
    for key in 1..=4096u64 {
        let made = reply_to(run, Do::Seek, key, 0);
        same(rt, "the reply to a seek", made, Some(PlainReply::Lead(key)));
    }
    same(rt, "how many open loads", run.core.open_flights(), 4096);
    let full = PlainReply::Refused(Fault::TooManyFlights { limit: 4096 });
    same(
        rt,
        "one more seek",
        reply_to(run, Do::Seek, 5000, 0),
        Some(full),
    );
    let joined = reply_to(run, Do::Seek, 4096, 0);
    same(
        rt,
        "a seek of the last key",
        joined,
        Some(PlainReply::Join(4096)),
    );
    for key in 1..=4096u64 {
        let landed = reply_to(run, Do::Keep(key, light(key)), key, 0);
        let sharers = if key == 4096 { 2 } else { 1 };
        same(
            rt,
            "the reply to a landing",
            landed,
            Some(PlainReply::Kept(sharers)),
        );
    }
    same(
        rt,
        "open loads and entries at the end",
        (run.core.open_flights(), run.core.len()),
        (0, 4096),
    );
}

#[test]
fn as_many_loads_are_open_as_may_be(rt: HostRuntime) -> Result<(), Fail> {
    let limits = Config {
        flights: 4096,
        ring: 4097,
        ..config(4096, 4096, 1 << 48)
    };
    let mut run: Run<Loaded> = Run::new(rt.alloc(), &limits)?;
    open_and_land_all(&rt, &mut run);
    Ok(())
}

// Puts as many entries as window may hold: its order has each before those that were put earlier.
fn order_all(rt: &impl Abort, alloc: Global, run: &mut Run<Loaded>) -> Result<(), Fail> {
    for key in 0..65536u64 {
        let made = reply_to(run, Do::Put(light(key)), key, 0);
        same(rt, "the reply to a put", made, Some(PlainReply::Stored));
    }
    let order = run.core.order(alloc, Region::Window)?;
    same(rt, "how many keys of window", order.len(), 65536);
    let mut wanted = 65536u64;
    for key in &order {
        wanted = wanted.wrapping_sub(1);
        same(rt, "a key of window in its order", *key, wanted);
    }
    Ok(())
}

#[test]
fn an_order_is_as_long_as_a_region_may_be(rt: HostRuntime) -> Result<(), Fail> {
    let mut run: Run<Loaded> = Run::new(rt.alloc(), &config(65536, 65536, 1 << 48))?;
    order_all(&rt, rt.alloc(), &mut run)
}

// More than any limit of a cache.
const MANY: u64 = 100_001;

fn looks(alloc: Global) -> Result<Vec<Call<u64, Loaded>>, Fail> {
    let mut calls = Vec::new(alloc);
    for _ in 0..MANY {
        calls.push(Call::Look(1, 0))?;
    }
    Ok(calls)
}

fn run_all(
    rt: &impl Abort,
    alloc: Global,
    run: &mut Run<Loaded>,
    calls: Vec<Call<u64, Loaded>>,
) -> Result<(), Fail> {
    let replies = run_calls(alloc, &mut run.core, calls, &mut run.notices)?;
    same(rt, "how many replies", replies.len() as u64, MANY);
    for reply in &replies {
        holds(rt, "a look finds nothing", matches!(reply, Reply::Absent));
    }
    same(rt, "how many steps", run.core.step(), MANY);
    Ok(())
}

#[test]
fn a_run_may_be_long(rt: HostRuntime) -> Result<(), Fail> {
    let calls = looks(rt.alloc())?;
    let mut run: Run<Loaded> = Run::new(rt.alloc(), &config(4, 1, 10))?;
    run_all(&rt, rt.alloc(), &mut run, calls)
}

// The first seek opens the load.
fn share_all(rt: &impl Abort, run: &mut Run<Loaded>) {
    let opened = reply_to(run, Do::Seek, 1, 0);
    same(rt, "the first seek", opened, Some(PlainReply::Lead(1)));
    for _ in 1..MANY {
        let joined = reply_to(run, Do::Seek, 1, 0);
        same(rt, "a later seek", joined, Some(PlainReply::Join(1)));
    }
    let landed = reply_to(run, Do::Keep(1, light(5)), 1, 0);
    same(rt, "the landing", landed, Some(PlainReply::Kept(MANY)));
}

#[test]
fn a_load_may_have_many_sharers(rt: HostRuntime) -> Result<(), Fail> {
    let mut run: Run<Loaded> = Run::new(rt.alloc(), &config(4, 1, 10))?;
    share_all(&rt, &mut run);
    Ok(())
}
