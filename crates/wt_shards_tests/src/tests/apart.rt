// Shards have locks of their own. A look holds one of four shards, and a call that takes each
// shard's lock in turn waits for it. Meanwhile each call at each other shard goes on.
ghost use Rattle.std.specs.Prelude.{◌≡◌};
ghost use Rattle.wt_shards.specs.Opening.{AreBlanksOf};

use super::caller::Caller;
use super::compare::same;
use super::config;
use std::alloc::Global;
use std::marker::Brand;
use std::process::Abort;
use std::sync::atomic::{AtomicBool, AtomicU64, Ordering};
use std::sync::{Arc, Wait};
use std::test::Fail;
use std::thread;
use std::thread::Threads;
use wt_core::{Call, Config, Land, Reply};
use wt_keys::Fault;
use wt_shards::{Blanks, Names, Of, Shards};
use wt_tests::{Gate, Gated};

// The key of each of four shards, from the first to the last.
const KEYS: [u64; 4] = [4, 3, 2, 1];

// The calls that take each shard's lock.
#[derive(Clone, Copy, Debug, PartialEq, Eq)]
enum Round {
    Clear,
    Clean,
    Pass,
    Stats,
}

// The shards, and a caller of them.
type Gates<N> = Shards<u64, Gated, Of<N>>;

type Guest<N> = Caller<Gated, Of<N>>;

// Which shard is held, by its key, and the call that goes from shard to shard; and what the threads
// tell each other.
#[derive(Drop)]
struct Scene {
    held: u64,
    round: Round,
    gate: Arc<Gate, Global>,
    // How many callers were made beside the one that holds the shard.
    made: AtomicU64,
    // Whether the call that goes from shard to shard was begun.
    begun: AtomicBool,
}

// Returns whether both other callers are made within 10,000,000 turns.
fn are_made(scene: &Scene) -> bool {
    for _ in 0..10_000_000u32 {
        if scene.made.load(Ordering::SeqCst) == 2 {
            return true;
        }
        thread::yield_now();
    }
    false
}

// Puts a gated value, and looks it up. Whether it is there.
fn looks<N: Names, R: Wait + Abort>(
    rt: &R,
    shards: &Gates<N>,
    caller: &mut Guest<N>,
    scene: &Scene,
    gated: Gated,
) -> Result<bool, Fault> {
    caller.make(rt, shards, Call::Put(scene.held, gated, 0))?;
    let made = are_made(scene);
    let (reply, _step) = caller.make(rt, shards, Call::Look(scene.held, 0))?;
    Ok(made && matches!(reply, Reply::Hit(_)))
}

// The first thread: holds the shard of the held key until the gate opens.
fn holds_one<N: Names, R: Wait + Abort>(
    rt: &R,
    alloc: Global,
    shards: &Gates<N>,
    scene: &Scene,
) -> Result<bool, Fault> {
    let gated = Gated::by(Arc::try_clone(&scene.gate)?);
    let mut caller = Caller::new(rt, alloc, shards)?;
    looks(rt, shards, &mut caller, scene, gated)
}

// Makes the call that goes from shard to shard once the shard is held. Whether it was.
fn goes<N: Names, R: Wait + Abort>(
    rt: &R,
    alloc: Global,
    shards: &Gates<N>,
    caller: &mut Guest<N>,
    scene: &Scene,
) -> Result<bool, Fault> {
    let held = scene.gate.begins();
    scene.begun.store(true, Ordering::SeqCst);
    match scene.round {
        Round::Clear => {
            let _answer = caller.make(rt, shards, Call::Clear(0))?;
        }
        Round::Clean => {
            let _answer = caller.make(rt, shards, Call::Clean(0))?;
        }
        Round::Pass => {
            let _pass = shards.pass(rt, alloc)?;
        }
        Round::Stats => {
            let _stats = shards.stats(rt);
        }
    }
    Ok(held)
}

// The second thread: makes that call.
fn goes_round<N: Names, R: Wait + Abort>(
    rt: &R,
    alloc: Global,
    shards: &Gates<N>,
    scene: &Scene,
) -> Result<bool, Fault> {
    let mut caller = Caller::new(rt, alloc, shards)?;
    scene.made.fetch_add(1, Ordering::SeqCst);
    goes(rt, alloc, shards, &mut caller, scene)
}

// Makes each call on a key. Their replies are dropped: a clear may be beside them.
fn calls_all<N: Names, R: Wait + Abort>(
    rt: &R,
    shards: &Gates<N>,
    caller: &mut Guest<N>,
    key: u64,
) -> Result<(), Fault> {
    caller.make(rt, shards, Call::Put(key, Gated::free(), 0))?;
    caller.make(rt, shards, Call::Look(key, 0))?;
    caller.make(rt, shards, Call::DropKey(key, 0))?;
    caller.make(rt, shards, Call::Seek(key, 0))?;
    caller.make(rt, shards, Call::Forget(key, 0))?;
    let id = caller.led(key).unwrap_or(0);
    caller.make(rt, shards, Call::Land(id, key, Land::Failed, 0))?;
    Ok(())
}

// Makes each call at each shard but that of the held key.
fn calls_round<N: Names, R: Wait + Abort>(
    rt: &R,
    shards: &Gates<N>,
    caller: &mut Guest<N>,
    held: u64,
) -> Result<(), Fault> {
    for key in KEYS {
        if key != held {
            calls_all(rt, shards, caller, key)?;
        }
    }
    Ok(())
}

// The same 100 times, from when the call that goes from shard to shard was begun.
fn calls_beside<N: Names, R: Wait + Abort>(
    rt: &R,
    shards: &Gates<N>,
    caller: &mut Guest<N>,
    scene: &Scene,
) -> Result<bool, Fault> {
    let mut turns = 0u32;
    for _ in 0..10_000_000u32 {
        if turns == 100 {
            return Ok(true);
        }
        if scene.begun.load(Ordering::SeqCst) {
            calls_round(rt, shards, caller, scene.held)?;
            turns = turns.wrapping_add(1);
        }
        thread::yield_now();
    }
    Ok(false)
}

// The third thread: opens the gate once the calls at the other shards are made. Whether they were.
fn opens_after<N: Names, R: Wait + Abort>(
    rt: &R,
    alloc: Global,
    shards: &Gates<N>,
    scene: &Scene,
) -> Result<bool, Fault> {
    let mut caller = Caller::new(rt, alloc, shards)?;
    scene.made.fetch_add(1, Ordering::SeqCst);
    let called = calls_beside(rt, shards, &mut caller, scene);
    scene.gate.open();
    called
}

// Whether the look that holds a shard hits, the call beside it is made, and so are the calls at the
// other shards.
type Seen = (bool, bool, bool);

fn plays<N: Names + Send + Sync, R: Threads + Wait + Abort + Sync>(
    rt: &R,
    alloc: Global,
    shards: &Gates<N>,
    scene: &Scene,
) -> Result<Seen, Fault> {
    let (hit, (made, called)) = thread::join(
        rt,
        || holds_one(rt, alloc, shards, scene),
        || {
            thread::join(
                rt,
                || goes_round(rt, alloc, shards, scene),
                || opens_after(rt, alloc, shards, scene),
            )
        },
    );
    Ok((hit?, made?, called?))
}

fn played<N: Names + Send + Sync, R: Threads + Wait + Abort + Sync>(
    rt: &R,
    alloc: Global,
    blanks: Blanks<u64, Gated>,
    limits: &Config,
    scene: &Scene,
) -> Result<Seen, Fault>
    requires layout { N.layout ≡ record { shards = 4; config = limits.now } }
    requires blanks { AreBlanksOf N.name N.book blanks }
{
    let shards: Gates<N> = Shards::new(rt, alloc, blanks, limits, 4)?;
    plays(rt, alloc, &shards, scene)
}

// The one place that names the ledgers of these shards.
fn plays_at<R: Threads + Wait + Abort + Sync>(
    rt: &R,
    alloc: Global,
    limits: &Config,
    scene: &Scene,
) -> Result<Seen, Fault> {
    played::<Brand, R>(rt, alloc, Blanks::new(), limits, scene)
}

#[test]
fn a_call_that_waits_for_a_shard_holds_no_other(rt: HostRuntime) -> Result<(), Fail> {
    for round in [Round::Clear, Round::Clean, Round::Pass, Round::Stats] {
        for held in KEYS {
            let scene = Scene {
                held,
                round,
                gate: Gate::new(rt.alloc())?,
                made: AtomicU64::new(0),
                begun: AtomicBool::new(false),
            };
            let seen = plays_at(&rt, rt.alloc(), &config(1000), &scene);
            same(
                &rt,
                "the call, the key at the held shard; the hit, the call and those at the others",
                (round, held, seen),
                (round, held, Ok((true, true, true))),
            );
        }
    }
    Ok(())
}
