// Calls of one caller or of several threads on one cache of one shard, of two and of four.
ghost use Rattle.std.specs.Prelude.{◌≡◌};
ghost use Rattle.wt_shards.specs.Opening.{AreBlanksOf};

use crate::tests::asleep::sleepers;
use crate::tests::calls::{Answer, Led, get, led, put};
use crate::tests::codes::{failed_jobs, failed_shares};
use crate::tests::leads::alone;
use crate::tests::posted::posted_load;
use crate::tests::sharing::sharers;
use crate::tests::stage::{Cache, Marks, Plain, Rules, Version, Way, light, new_marks};
use crate::tests::threads::{given_up, one_load, put_beside_load};
use crate::tests::workers::{full_line, heavy_load, many_loads, one_worker, refresh, two_workers};
use std::alloc::Global;
use std::marker::Brand;
use std::process::Abort;
use std::sync::{Arc, Wait};
use std::thread::Threads;
use wt_cache::{JobLine, LoadingCache};
use wt_core::Config;
use wt_keys::Fault;
use wt_shards::{Blanks, Names, Of, Pass, Shards};

/// A call.
#[derive(Clone, Copy, Debug, PartialEq, Eq)]
pub enum Scene {
    /// The lead of an open load is dropped.
    Dropped,
    /// An open load is given up.
    Abandoned,
    /// An open load is forgotten.
    Forgotten,
    /// As many entries that weigh 2 leave as one value enters, by a worker.
    Heavy(u32),
    /// Two callers ask for a key while its load is held.
    OneLoad,
    /// A caller gets a key twice, each time with its share of the load.
    Sharers,
    /// A value is put while its key is loaded.
    PutBesideLoad,
    /// A load stands in a line of one place, and is run after all.
    FullLine,
    /// One worker runs the loads of one caller, of which the first fails.
    OneWorker,
    /// One worker runs the loads of one caller, more than a line may have places.
    ManyLoads,
    /// Two workers run two loads, each of which ends only once the other has begun.
    TwoWorkers,
    /// One worker loads a value that is due.
    Refresh,
    /// Two workers sleep while nothing is posted.
    Sleepers,
    /// A load is given up for which a caller waits.
    GivenUp,
    /// Two callers share each of three loads, which fail.
    FailedShares,
    /// One worker runs three loads, which fail.
    FailedJobs,
    /// Two callers ask for a key at this moment while a worker's load of it is held.
    Posted(u64),
}

impl Scene {
    // How the loader answers.
    fn way(self) -> Way {
        match self {
            Scene::OneLoad | Scene::PutBesideLoad | Scene::Posted(_) => Way::HoldsOne,
            Scene::Dropped
            | Scene::Abandoned
            | Scene::Forgotten
            | Scene::FullLine
            | Scene::ManyLoads
            | Scene::Refresh
            | Scene::GivenUp
            | Scene::Sharers
            | Scene::Sleepers => Way::Plain,
            Scene::Heavy(entries) => Way::Weighs(entries.wrapping_mul(2)),
            Scene::OneWorker => Way::FailsOne,
            Scene::TwoWorkers => Way::InPairs,
            Scene::FailedShares | Scene::FailedJobs => Way::FailsByKey,
        }
    }

    // The places of the line, 0 for none.
    fn places(self) -> u32 {
        match self {
            Scene::Dropped
            | Scene::Abandoned
            | Scene::Forgotten
            | Scene::OneLoad
            | Scene::Sharers
            | Scene::PutBesideLoad
            | Scene::GivenUp
            | Scene::FailedShares => 0,
            Scene::Heavy(_)
            | Scene::FullLine
            | Scene::OneWorker
            | Scene::ManyLoads
            | Scene::Refresh
            | Scene::Posted(_)
            | Scene::FailedJobs => 1,
            Scene::TwoWorkers | Scene::Sleepers => 2,
        }
    }
}

/// A caller with a pass of its own gets a key at the moment 0.
pub fn gets<N: Names, R: Wait>(rt: &R, alloc: Global, cache: &Cache<N>, key: u64) -> Answer {
    gets_at(rt, alloc, cache, key, 0)
}

/// The same at a moment.
pub fn gets_at<N: Names, R: Wait>(
    rt: &R,
    alloc: Global,
    cache: &Cache<N>,
    key: u64,
    now: u64,
) -> Answer {
    let mut pass = cache.pass(rt, alloc)?;
    get(rt, alloc, cache, &mut pass, key, now)
}

// Puts key 1 and gets it at a moment.
fn puts_and_gets_by<N: Names, R: Wait>(
    rt: &R,
    alloc: Global,
    cache: &Cache<N>,
    pass: &mut Pass<u64, Version, Of<N>>,
    now: u64,
) -> Answer {
    put(rt, alloc, cache, pass, light(1, 5), 0)?;
    get(rt, alloc, cache, pass, 1, now)
}

/// The same with a pass of its own.
pub fn puts_and_gets<N: Names, R: Wait>(
    rt: &R,
    alloc: Global,
    cache: &Cache<N>,
    now: u64,
) -> Answer {
    let mut pass = cache.pass(rt, alloc)?;
    puts_and_gets_by(rt, alloc, cache, &mut pass, now)
}

// A load of key 1, opened by a pass that is dropped then.
fn led_alone<N: Names, R: Wait>(rt: &R, alloc: Global, shards: &Plain<N>) -> Result<Led, Fault> {
    let mut pass = shards.pass(rt, alloc)?;
    led(rt, alloc, shards, &mut pass, 1)
}

// The load that is open when a scene begins.
fn led_for<N: Names, R: Wait>(
    rt: &R,
    alloc: Global,
    shards: &Plain<N>,
    scene: Scene,
) -> Result<Led, Fault> {
    match scene {
        Scene::Dropped
        | Scene::Abandoned
        | Scene::Forgotten
        | Scene::Heavy(_)
        | Scene::FullLine
        | Scene::GivenUp => led_alone(rt, alloc, shards),
        _ => Ok(None),
    }
}

// A line of `places` places, or none if it is 0.
fn line_of(alloc: Global, places: u32) -> Result<Option<JobLine<u64, Version>>, Fault> {
    if places == 0 {
        return Ok(None);
    }
    let line = JobLine::new(alloc, places)?;
    Ok(Some(line))
}

// Plays.
fn act<N: Names + Send + Sync, R: Threads + Wait + Abort + Sync>(
    rt: &R,
    alloc: Global,
    cache: &Cache<N>,
    marks: &Marks,
    open: Led,
    scene: Scene,
) -> Result<(), Fault> {
    match scene {
        Scene::Dropped | Scene::Abandoned | Scene::Forgotten => {
            alone(rt, alloc, cache, open, scene)
        }
        Scene::Heavy(entries) => heavy_load(rt, alloc, cache, open, entries),
        Scene::OneLoad => one_load(rt, alloc, cache, marks),
        Scene::Sharers => sharers(rt, alloc, cache),
        Scene::PutBesideLoad => put_beside_load(rt, alloc, cache, marks),
        Scene::FullLine => full_line(rt, alloc, cache, open),
        Scene::OneWorker => one_worker(rt, alloc, cache),
        Scene::ManyLoads => many_loads(rt, alloc, cache),
        Scene::TwoWorkers => two_workers(rt, alloc, cache),
        Scene::Refresh => refresh(rt, alloc, cache),
        Scene::Sleepers => sleepers(rt, alloc, cache),
        Scene::GivenUp => given_up(rt, alloc, cache, open),
        Scene::FailedShares => failed_shares(rt, alloc, cache, marks),
        Scene::FailedJobs => failed_jobs(rt, alloc, cache, marks),
        Scene::Posted(now) => posted_load(rt, alloc, cache, marks, now),
    }
}

// Plays on a cache of `count` shards.
fn played<N: Names + Send + Sync, R: Threads + Wait + Abort + Sync>(
    rt: &R,
    alloc: Global,
    blanks: Blanks<u64, Version>,
    config: &Config,
    count: usize,
    scene: Scene,
) -> Result<(), Fault>
    requires layout { N.layout ≡ record { shards = count; config = config.now } }
    requires blanks { AreBlanksOf N.name N.book blanks }
{
    let way = scene.way();
    let marks = new_marks(alloc)?;
    let theirs = Arc::try_clone(&marks)?;
    let line = line_of(alloc, scene.places())?;
    let shards: Plain<N> = Shards::new(rt, alloc, blanks, config, count)?;
    let open = led_for(rt, alloc, &shards, scene)?;
    let cache: Cache<N> = LoadingCache::new(shards, Rules { way, marks: theirs }, line);
    let marks: &Marks = &marks;
    act(rt, alloc, &cache, marks, open, scene)
}

/// Plays on a cache of `count` shards, 1, 2 or 4. The one place that names the ledgers of these
/// caches.
pub fn plays_at<R: Threads + Wait + Abort + Sync>(
    rt: &R,
    alloc: Global,
    config: &Config,
    count: usize,
    scene: Scene,
) -> Result<(), Fault> {
    played::<Brand, R>(rt, alloc, Blanks::new(), config, count, scene)
}

/// Plays on one shard, on two and on four.
pub fn plays<R: Threads + Wait + Abort + Sync>(
    rt: &R,
    alloc: Global,
    config: &Config,
    scene: Scene,
) -> Result<(), Fault> {
    plays_at(rt, alloc, config, 1, scene)?;
    plays_at(rt, alloc, config, 2, scene)?;
    plays_at(rt, alloc, config, 4, scene)
}
