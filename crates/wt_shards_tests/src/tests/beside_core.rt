// The shard beside a cache that isn't audited, run on the same calls. At the end its records run on
// a cache of shades that made the steps before them.
use super::compare::{holds, same};
use super::plain::Plain;
use super::run::{Run, keys_of};
use super::scene::{Scene, plays};
use super::{answered, shaded};
use std::alloc::Global;
use std::process::Abort;
use std::test::Fail;
use wt_core::Config;
use wt_keys::{Fault, NoMemory};
use wt_shards::{Names, Noted, Shade};
use wt_tests::{Dice, Loaded, call_of, choose};

// The shard may answer the fault alone where the cache answers `Refused`. A step is added to those
// made.
fn one_call<N: Names>(
    rt: &impl Abort,
    dice: &mut Dice,
    run: &mut Run<Loaded, N>,
    plain: &mut Plain<Loaded>,
    made: &mut Vec<Noted<u64>>,
    (key, version, now): (u64, u64, u64),
) -> Result<(), NoMemory> {
    let act = choose(dice, plain.core.oldest_load(key), 20, version);
    let before = plain.core.step();
    let wanted = plain.make(call_of(act, key, now));
    let reply = run.make(call_of(act, key, now));
    same(rt, "the reply", answered(reply), answered(wanted));
    if plain.core.step() > before {
        made.push(shaded(act, key, now))?;
    }
    Ok(())
}

fn expect_same<N: Names>(rt: &impl Abort, run: &Run<Loaded, N>, plain: &Plain<Loaded>) {
    let stats = plain.core.stats();
    same(rt, "the numbers", run.stats(), stats);
    let steps = plain.core.step();
    same(rt, "the steps", run.steps(), steps);
    same(
        rt,
        "the caller's steps and hits",
        run.counts(),
        (steps, stats.hits),
    );
    let (dropped, kept) = run.records();
    same(rt, "the records", dropped.wrapping_add(kept as u64), steps);
    expect_notices(rt, run, plain);
}

fn expect_notices<N: Names>(rt: &impl Abort, run: &Run<Loaded, N>, plain: &Plain<Loaded>) {
    let list = plain.notices.list();
    same(rt, "how many notices", run.notices().len(), list.len());
    for (notice, wanted) in run.notices().iter().zip(list) {
        let got = (notice.key, notice.value, notice.cause);
        same(
            rt,
            "a notice",
            got,
            (wanted.key, wanted.value, wanted.cause),
        );
    }
}

// Makes the first of the steps on the copy, as many as this.
fn follow(rt: &impl Abort, copy: &mut Plain<Shade>, made: Vec<Noted<u64>>, dropped: u64) {
    let mut number: u64 = 0;
    for call in made {
        if number < dropped {
            let reply = copy.make(call);
            holds(rt, "a step on the copy", reply.is_ok());
        }
        number = number.wrapping_add(1);
    }
}

// Makes the shard's records on the copy.
fn catch_up<N: Names>(rt: &impl Abort, copy: &mut Plain<Shade>, run: &Run<Loaded, N>, kept: usize) {
    for place in 0..kept {
        if let Some(call) = run.noted(place) {
            let reply = copy.make(call);
            holds(rt, "a record on the copy", reply.is_ok());
        }
    }
}

// The lagging copy is what the first of the steps leave, and the records are the steps after them.
fn expect_outline<N: Names>(
    rt: &impl Abort,
    alloc: Global,
    limits: &Config,
    run: &Run<Loaded, N>,
    plain: &Plain<Loaded>,
    made: Vec<Noted<u64>>,
) -> Result<(), Fault> {
    let (dropped, kept) = run.records();
    same(
        rt,
        "the records at the end",
        dropped.wrapping_add(kept as u64),
        made.len() as u64,
    );
    let mut copy: Plain<Shade> = Plain::new(alloc, limits)?;
    follow(rt, &mut copy, made, dropped);
    same(
        rt,
        "the lagging copy's numbers",
        run.lagging(),
        copy.core.stats(),
    );
    expect_keys(
        rt,
        alloc,
        "the lagging copy's keys",
        run.lagging_keys(alloc),
        &copy,
    );
    catch_up(rt, &mut copy, run, kept);
    same(
        rt,
        "the copy's numbers at the end",
        run.stats(),
        copy.core.stats(),
    );
    let keys = keys_of(alloc, &plain.core);
    expect_keys(rt, alloc, "the copy's keys at the end", keys, &copy);
    Ok(())
}

// Asserts that the copy's keys in the three regions are these.
fn expect_keys(
    rt: &impl Abort,
    alloc: Global,
    which: &str,
    keys: Result<[Vec<u64>; 3], NoMemory>,
    copy: &Plain<Shade>,
) {
    same(rt, which, keys, keys_of(alloc, &copy.core));
}

fn limits(entries: u32, bound: u64, flights: u32, ring: u32) -> Config {
    Config {
        entries,
        window: 1,
        bound,
        after_write: Some(30),
        after_access: Some(12),
        refresh: Some(6),
        flights,
        ring,
    }
}

// Makes the calls on both, compares them after each, and returns the steps that were made.
fn make_all<N: Names>(
    rt: &impl Abort,
    alloc: Global,
    run: &mut Run<Loaded, N>,
    plain: &mut Plain<Loaded>,
    keys: u64,
) -> Vec<Noted<u64>> {
    let mut dice = Dice(keys);
    let mut made = Vec::new(alloc);
    // Moments repeat, go on, and now and then go back a little.
    let mut now: u64 = 100;
    for version in 0..1200 {
        now = now.saturating_add(dice.roll(3));
        let moment = now.saturating_sub(dice.roll(2));
        let key = dice.roll(keys);
        let call = one_call(rt, &mut dice, run, plain, &mut made, (key, version, moment));
        holds(rt, "memory for the steps", call.is_ok());
        expect_same(rt, run, plain);
    }
    made
}

// Random calls, on the keys below `keys`: the shard makes them, and a plain cache beside it.
#[derive(Drop)]
struct Beside {
    keys: u64,
}

impl Scene<Loaded> for Beside {
    fn play<N: Names, R: Abort>(
        &self,
        rt: &R,
        alloc: Global,
        limits: &Config,
        run: &mut Run<Loaded, N>,
    ) -> Result<(), Fault> {
        let mut plain = Plain::new(alloc, limits)?;
        let made = make_all(rt, alloc, run, &mut plain, self.keys);
        expect_outline(rt, alloc, limits, run, &plain, made)
    }
}

#[test]
fn the_shard_does_as_its_cache_does(rt: HostRuntime) -> Result<(), Fail> {
    let tables = [
        (limits(1, 5, 1, 2), 3),
        (limits(4, 20, 2, 3), 6),
        (limits(8, 1000, 4, 40), 12),
    ];
    for (limits, keys) in tables {
        plays(&rt, rt.alloc(), &limits, &Beside { keys })?;
    }
    Ok(())
}
