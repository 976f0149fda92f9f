// Loads that nobody runs: dropped, given up, and forgotten. Each shard has room for few.
use crate::tests::calls::{Led, abandon, forget, get, put, sweep};
use crate::tests::compare::{holds, same};
use crate::tests::stage::{Cache, Version, config, light};
use crate::tests::together::{Scene, plays};
use std::alloc::Global;
use std::process::Abort;
use std::sync::Wait;
use std::test::Fail;
use wt_cache::How;
use wt_core::Cause;
use wt_flights::Outcome;
use wt_keys::Fault;
use wt_shards::{Names, Of, Pass};

// Gets key 5 of the shard of key 1, whose one load is open.
fn expect_full<N: Names, R: Wait + Abort>(
    rt: &R,
    alloc: Global,
    cache: &Cache<N>,
    pass: &mut Pass<u64, Version, Of<N>>,
) {
    let full = Fault::TooManyFlights { limit: 1 };
    same(
        rt,
        "a get while the load is open",
        get(rt, alloc, cache, pass, 5, 0),
        Err(full),
    );
}

// The lead of the one load of a shard is dropped.
fn dropped<N: Names, R: Wait + Abort>(
    rt: &R,
    alloc: Global,
    cache: &Cache<N>,
    pass: &mut Pass<u64, Version, Of<N>>,
    open: Led,
) -> Result<(), Fault> {
    let Some((lead, mut ticket)) = open else {
        return Err(Fault::Mixed);
    };
    expect_full(rt, alloc, cache, pass);
    drop(lead);
    expect_full(rt, alloc, cache, pass);
    holds(
        rt,
        "the ticket of a dropped lead knows nothing",
        matches!(ticket.poll(), Ok(None)),
    );
    Ok(())
}

// The one load of a shard is given up; then key 5 of that shard is got.
fn abandoned<N: Names, R: Wait + Abort>(
    rt: &R,
    alloc: Global,
    cache: &Cache<N>,
    pass: &mut Pass<u64, Version, Of<N>>,
    open: Led,
) -> Result<(), Fault> {
    let Some((lead, mut ticket)) = open else {
        return Err(Fault::Mixed);
    };
    expect_full(rt, alloc, cache, pass);
    same(
        rt,
        "the load is given up",
        abandon(rt, alloc, cache, pass, lead),
        Ok(()),
    );
    let told = ticket.poll();
    holds(
        rt,
        "the ticket knows that it was given up",
        matches!(told, Ok(Some(Outcome::Abandoned))),
    );
    let got = get(rt, alloc, cache, pass, 5, 0);
    same(
        rt,
        "a get once the load is given up",
        got,
        Ok((How::Loaded, 0)),
    );
    let home = cache.shards().saturating_sub(1);
    same(rt, "the steps of the pass", pass.steps(home), 3);
    Ok(())
}

#[test]
fn a_dropped_lead_keeps_its_load_open(rt: HostRuntime) -> Result<(), Fail> {
    plays(&rt, rt.alloc(), &config(4, 1, None), Scene::Dropped)?;
    Ok(())
}

#[test]
fn a_load_that_is_given_up_is_told_so(rt: HostRuntime) -> Result<(), Fail> {
    plays(&rt, rt.alloc(), &config(4, 1, None), Scene::Abandoned)?;
    Ok(())
}

// An open load is forgotten; entries expire, and the others are taken out.
fn forgotten<N: Names, R: Wait + Abort>(
    rt: &R,
    alloc: Global,
    cache: &Cache<N>,
    pass: &mut Pass<u64, Version, Of<N>>,
    open: &Led,
) {
    holds(rt, "a load is open", open.is_some());
    same(
        rt,
        "the first forget",
        forget(rt, alloc, cache, pass, 1),
        Ok(true),
    );
    same(
        rt,
        "the second forget",
        forget(rt, alloc, cache, pass, 1),
        Ok(false),
    );
    puts_two(rt, alloc, cache, pass);
    let expired = (1, 2, Some(Cause::Expired));
    let taken = (1, 3, Some(Cause::Explicit));
    let swept = sweep(rt, alloc, cache, pass);
    same(
        rt,
        "what expired, and what was taken out",
        swept,
        Ok((expired, taken)),
    );
    let got = get(rt, alloc, cache, pass, 1, 10);
    holds(
        rt,
        "the forgotten key is loaded anew",
        matches!(got, Ok((How::Loaded, _))),
    );
}

// Puts key 2 at 0 and key 3 at 5.
fn puts_two<N: Names, R: Wait + Abort>(
    rt: &R,
    alloc: Global,
    cache: &Cache<N>,
    pass: &mut Pass<u64, Version, Of<N>>,
) {
    let two = light(2, 5);
    holds(
        rt,
        "the first put",
        put(rt, alloc, cache, pass, two, 0).is_ok(),
    );
    let three = light(3, 6);
    holds(
        rt,
        "the second put",
        put(rt, alloc, cache, pass, three, 5).is_ok(),
    );
}

// The calls of a caller by itself while a load of key 1 is open.
fn alone_by<N: Names, R: Wait + Abort>(
    rt: &R,
    alloc: Global,
    cache: &Cache<N>,
    pass: &mut Pass<u64, Version, Of<N>>,
    open: Led,
    scene: Scene,
) -> Result<(), Fault> {
    match scene {
        Scene::Dropped => dropped(rt, alloc, cache, pass, open),
        Scene::Abandoned => abandoned(rt, alloc, cache, pass, open),
        _ => {
            forgotten(rt, alloc, cache, pass, &open);
            Ok(())
        }
    }
}

/// The same with a pass of its own.
pub fn alone<N: Names, R: Wait + Abort>(
    rt: &R,
    alloc: Global,
    cache: &Cache<N>,
    open: Led,
    scene: Scene,
) -> Result<(), Fault> {
    let mut pass = cache.pass(rt, alloc)?;
    alone_by(rt, alloc, cache, &mut pass, open, scene)
}

#[test]
fn a_forgotten_load_is_made_anew(rt: HostRuntime) -> Result<(), Fail> {
    plays(&rt, rt.alloc(), &config(4, 8, Some(10)), Scene::Forgotten)?;
    Ok(())
}
