// Refused memory and refused shares: what is refused is no step, and goes well when it is tried
// again.
ghost use Rattle.std.specs.Prelude.{ℕ, IsTrue};

use super::compare::{holds, same};
use super::plain::Plain;
use super::run::Run;
use super::scene::{Scene, plays};
use super::{answered, config, shaded};
use std::alloc::Global;
use std::cell::Cell;
use std::process::Abort;
use std::rc::Rc;
use std::test::Fail;
use wt_core::{Config, Stats, Weighs};
use wt_keys::{Answers, Fault, Share};
use wt_shards::{Names, Shade};
use wt_tests::{Do, Fussy, Loaded, PlainReply, Step, call_of, call_with, counter, light};

// A step on a key at a moment, with the number of shares that it asks for with ample memory.
type Row = (Step, u64, u64, u32);

// The state after a refused step: the numbers, the steps, the caller's own, the notices.
type Seen = (Stats, u64, (u64, u64), usize);

fn seen<V: Share + Weighs + Answers<u64>, N: Names>(rt: &impl Abort, run: &Run<V, N>) -> Seen {
    let (dropped, kept) = run.records();
    same(
        rt,
        "the records",
        dropped.wrapping_add(kept as u64),
        run.steps(),
    );
    (run.stats(), run.steps(), run.counts(), run.notices().len())
}

// Entries 5, window 1: main 4, protected 3. Values are due 20 ms after they were written, and
// expire after 100.
fn rows() -> [Row; 12] {
    [
        (Step::Put, 1, 0, 0),
        (Step::Put, 2, 0, 1),
        (Step::Seek, 3, 0, 0),
        (Step::Land(1), 3, 0, 1),
        (Step::Seek, 4, 0, 0),
        (Step::Seek, 4, 0, 0),
        (Step::Land(2), 4, 0, 1),
        (Step::Look, 4, 10, 1),
        (Step::Look, 1, 10, 2),
        (Step::Seek, 2, 20, 2),
        (Step::Land(3), 2, 30, 0),
        (Step::Seek, 1, 100, 0),
    ]
}

// One try, with the share of this number refused; whether it was refused, and then nothing is
// changed.
fn is_refused<N: Names>(
    rt: &impl Abort,
    run: &mut Run<Fussy, N>,
    value: Fussy,
    (step, key, now, _): Row,
) -> bool {
    run.forget_notices();
    let before = seen(rt, run);
    match run.make(call_with(step, key, value, now)) {
        Ok(_) => false,
        Err(fault) => {
            same(rt, "the fault of a refused share", fault, Fault::NoMemory);
            same(
                rt,
                "what is seen after a refused share",
                before,
                seen(rt, run),
            );
            true
        }
    }
}

// Tries the step with its first share refused, then the second, until it goes well.
fn insist<N: Names>(rt: &impl Abort, run: &mut Run<Fussy, N>, left: &Rc<Cell<u32>>, row: Row) {
    let mut refused = 0;
    for share in 1..8 {
        left.set(share);
        let Ok(left) = left.clone() else {
            continue;
        };
        if !is_refused(rt, run, Fussy::new(5, left), row) {
            break;
        }
        refused = share;
    }
    left.set(0);
    let (_, key, now, shares) = row;
    same(
        rt,
        "key and moment, and how many shares were refused",
        (key, now, refused.min(shares)),
        (key, now, shares),
    );
}

fn insist_on_all<N: Names>(rt: &impl Abort, run: &mut Run<Fussy, N>, left: &Rc<Cell<u32>>) {
    for row in rows() {
        insist(rt, run, left, row);
    }
    same(rt, "the steps at the end", run.steps(), 12);
}

#[derive(Drop)]
struct Shares {}

impl Scene<Fussy> for Shares {
    fn play<N: Names, R: Abort>(
        &self,
        rt: &R,
        alloc: Global,
        _limits: &Config,
        run: &mut Run<Fussy, N>,
    ) -> Result<(), Fault> {
        let left = counter(alloc)?;
        insist_on_all(rt, run, &left);
        Ok(())
    }
}

// Plays. With no memory for the shard there is nothing to see.
fn plays_if<V: Share + Weighs + Answers<u64>, R: Abort, S: Scene<V>>(
    rt: &R,
    alloc: Global,
    limits: &Config,
    scene: &S,
) -> Result<(), Fault>
    requires answers { (v : V) (k : ℕ) → IsTrue (V.answers v k) }
{
    match plays(rt, alloc, limits, scene) {
        Err(Fault::NoMemory) => Ok(()),
        played => played,
    }
}

#[test]
fn a_refused_share_is_no_step(rt: HostRuntime) -> Result<(), Fail> {
    let limits = Config {
        entries: 5,
        after_write: Some(100),
        refresh: Some(20),
        flights: 3,
        ring: 4,
        ..config(1000)
    };
    plays_if(&rt, rt.alloc(), &limits, &Shares {})?;
    Ok(())
}

// A call on a key, and its reply once there is memory.
type Asked = (Do, u64, PlainReply);

// All calls, each of which is a step.
fn calls() -> [Asked; 18] {
    [
        (Do::Put(light(1)), 1, PlainReply::Stored),
        (Do::Put(light(2)), 2, PlainReply::Stored),
        (Do::Put(light(3)), 3, PlainReply::Stored),
        (Do::Seek, 4, PlainReply::Lead(1)),
        (Do::Loose(1), 4, PlainReply::Loose(1)),
        (Do::Look, 1, PlainReply::Hit(light(1))),
        (Do::Seek, 4, PlainReply::Lead(2)),
        (Do::Seek, 4, PlainReply::Join(2)),
        (Do::Keep(2, light(4)), 4, PlainReply::Kept(2)),
        (Do::Seek, 4, PlainReply::Hit(light(4))),
        (Do::DropKey, 3, PlainReply::Dropped(true)),
        (Do::Seek, 5, PlainReply::Lead(3)),
        (Do::Forget, 5, PlainReply::Forgot(true)),
        (Do::Fail(3), 5, PlainReply::Failed(1)),
        (Do::Slide(true), 0, PlainReply::Slid(true)),
        (Do::Clean, 0, PlainReply::Cleaned),
        (Do::Clear, 0, PlainReply::Cleared),
        (Do::Look, 4, PlainReply::Absent),
    ]
}

// The landing of an open load without a value.
fn takes_no_memory(act: Do) -> bool {
    match act {
        Do::Loose(_) | Do::Fail(_) => true,
        _ => false,
    }
}

// Makes the first calls on the copy, as many as this; whether all were made.
fn follows(copy: &mut Plain<Shade>, dropped: u64) -> bool {
    let mut made: u64 = 0;
    let mut well = true;
    for (act, key, _) in calls() {
        if made < dropped {
            well = well && copy.make(shaded(act, key, 0)).is_ok();
            made = made.wrapping_add(1);
        }
    }
    well
}

// Makes the shard's records on the copy; whether all were made.
fn catches_up<N: Names>(copy: &mut Plain<Shade>, run: &Run<Loaded, N>, kept: usize) -> bool {
    let mut well = true;
    for place in 0..kept {
        if let Some(call) = run.noted(place) {
            well = well && copy.make(call).is_ok();
        }
    }
    well
}

// Whether the copy, on which the first calls are made, is the lagging copy, and after the records
// the shard. None where memory is refused to the test itself.
fn explains<N: Names>(copy: &mut Plain<Shade>, run: &Run<Loaded, N>) -> Option<bool> {
    let (dropped, kept) = run.records();
    let followed = follows(copy, dropped);
    let lags = run.lagging() == copy.core.stats();
    if followed && catches_up(copy, run, kept) {
        Some(lags && run.stats() == copy.core.stats())
    } else {
        None
    }
}

fn is_explained<N: Names>(alloc: Global, limits: &Config, run: &Run<Loaded, N>) -> Option<bool> {
    match Plain::<Shade>::new(alloc, limits) {
        Ok(mut copy) => explains(&mut copy, run),
        Err(_) => None,
    }
}

// A second time where memory was refused to the test itself.
fn expect_explained<N: Names>(
    rt: &impl Abort,
    alloc: Global,
    limits: &Config,
    run: &Run<Loaded, N>,
) {
    let mut explained = is_explained(alloc, limits, run);
    if explained.is_none() {
        explained = is_explained(alloc, limits, run);
    }
    same(rt, "the records explain the shard", explained, Some(true));
}

// Makes the call, a second time where memory was refused.
fn ask<N: Names>(
    rt: &impl Abort,
    alloc: Global,
    limits: &Config,
    run: &mut Run<Loaded, N>,
    (act, key, answer): Asked,
) {
    run.forget_notices();
    let before = seen(rt, run);
    let reply = answered(run.make(call_of(act, key, 0)));
    if reply == PlainReply::Refused(Fault::NoMemory) {
        holds(rt, "the call takes memory", !takes_no_memory(act));
        same(
            rt,
            "what is seen after a refused call",
            seen(rt, run),
            before,
        );
        expect_explained(rt, alloc, limits, run);
        let reply = answered(run.make(call_of(act, key, 0)));
        same(rt, "the reply once memory is there", reply, answer);
    } else {
        same(rt, "the reply", reply, answer);
    }
    expect_explained(rt, alloc, limits, run);
}

#[derive(Drop)]
struct Memory {}

impl Scene<Loaded> for Memory {
    fn play<N: Names, R: Abort>(
        &self,
        rt: &R,
        alloc: Global,
        limits: &Config,
        run: &mut Run<Loaded, N>,
    ) -> Result<(), Fault> {
        for call in calls() {
            ask(rt, alloc, limits, run, call);
        }
        same(rt, "the steps at the end", run.steps(), 18);
        Ok(())
    }
}

#[test]
fn what_is_refused_for_memory_is_no_step(rt: HostRuntime) -> Result<(), Fail> {
    plays_if(&rt, rt.alloc(), &config(1000), &Memory {})?;
    Ok(())
}
