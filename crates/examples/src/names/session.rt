// One caller that asks for one name at three moments.
ghost use Rattle.std.specs.Prelude.{◌≡◌};
ghost use Rattle.wt_shards.specs.Opening.{AreBlanksOf};

use crate::names::tally::{Loads, Tally};
use std::alloc::Global;
use std::sync::Wait;
use std::sync::atomic::AtomicU64;
use wt_cache::LoadingCache;
use wt_core::{Config, Notices};
use wt_keys::{Fault, Name};
use wt_shards::{Blanks, Names, Of, Pass, Shards};

// Asks for a name: the load that found it.
fn ask<N: Names, R: Wait>(
    rt: &R,
    alloc: Global,
    cache: &LoadingCache<Name, Tally, Loads, Of<N>>,
    pass: &mut Pass<Name, Tally, Of<N>>,
    name: Name,
    now: u64,
) -> Result<u64, Fault> {
    let mut left = Notices::new(alloc, 2 * cache.entries() as usize)?;
    let got = cache.get(rt, pass, name, now, &mut left)?;
    Ok(got.value.load)
}

// Asks for `alice` at three moments.
fn ask_thrice<N: Names, R: Wait>(
    rt: &R,
    alloc: Global,
    cache: &LoadingCache<Name, Tally, Loads, Of<N>>,
    pass: &mut Pass<Name, Tally, Of<N>>,
    now: [u64; 3],
) -> Result<[u64; 3], Fault> {
    let Some(alice) = Name::from_bytes(b"alice") else {
        return Err(Fault::Mixed);
    };
    let [first, second, third] = now;
    let first = ask(rt, alloc, cache, pass, alice, first)?;
    let second = ask(rt, alloc, cache, pass, alice, second)?;
    let third = ask(rt, alloc, cache, pass, alice, third)?;
    Ok([first, second, third])
}

/// Makes a cache and a pass, and asks for `alice` at three moments.
pub fn session<N: Names, R: Wait>(
    rt: &R,
    alloc: Global,
    blanks: Blanks<Name, Tally>,
    config: &Config,
    now: [u64; 3],
) -> Result<[u64; 3], Fault>
    requires layout { N.layout ≡ record { shards = 1; config = config.now } }
    requires blanks { AreBlanksOf N.name N.book blanks }
{
    let shards: Shards<Name, Tally, Of<N>> = Shards::new(rt, alloc, blanks, config, 1)?;
    let made = AtomicU64::new(0);
    let cache = LoadingCache::new(shards, Loads { made }, None);
    let mut pass = cache.pass(rt, alloc)?;
    ask_thrice(rt, alloc, &cache, &mut pass, now)
}
