// A get that also returns its share of the load, and what it returns beside that.
use crate::tests::compare::same;
use crate::tests::stage::{Cache, Version, config};
use crate::tests::together::{Scene, plays};
use std::alloc::Global;
use std::process::Abort;
use std::sync::Wait;
use std::test::Fail;
use wt_cache::How;
use wt_core::Notices;
use wt_keys::Fault;
use wt_shards::{Names, Of, Pass};

// Gets a key with its share of the load: how it was got, and the line of the version.
fn get<N: Names, R: Wait>(
    rt: &R,
    alloc: Global,
    cache: &Cache<N>,
    pass: &mut Pass<u64, Version, Of<N>>,
    key: u64,
) -> Result<(How, u64), Fault> {
    let mut notices = Notices::new(alloc, 2 * cache.entries() as usize)?;
    let shared = cache.get_sharing(rt, pass, key, 0, &mut notices)?;
    let how = shared.got().how;
    let got = shared.into_got();
    Ok((how, got.value.line))
}

/// Gets a key that isn't there, and once more.
pub fn sharers<N: Names, R: Wait + Abort>(
    rt: &R,
    alloc: Global,
    cache: &Cache<N>,
) -> Result<(), Fault> {
    let mut pass = cache.pass(rt, alloc)?;
    let loaded = get(rt, alloc, cache, &mut pass, 1);
    same(rt, "a get that loads", loaded, Ok((How::Loaded, 0)));
    let hit = get(rt, alloc, cache, &mut pass, 1);
    same(rt, "a get that hits", hit, Ok((How::Hit, 0)));
    Ok(())
}

#[test]
fn a_get_with_its_share_returns_what_it_got(rt: HostRuntime) -> Result<(), Fail> {
    plays(&rt, rt.alloc(), &config(4, 8, None), Scene::Sharers)?;
    Ok(())
}
