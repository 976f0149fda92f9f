// Values of which one share is refused. A caller that loads can't store the value and returns it
// all the same. A caller that only asks is refused. The same call made again succeeds.
ghost use Rattle.std.specs.Prelude.{◌≡◌};
ghost use Rattle.wt_shards.specs.Opening.{AreBlanksOf};

use super::compare::same;
use std::alloc::Global;
use std::marker::{Brand, Model};
use std::process::Abort;
use std::sync::atomic::{AtomicU64, Ordering};
use std::sync::{Arc, Wait};
use std::test::Fail;
use wt_cache::{How, JobLine, Loader, LoadingCache, WorkerReport};
use wt_core::{Config, Measure, Notices, Weighs};
use wt_flights::{Lead, Outcome, Ticket};
use wt_keys::{Answers, Fault, NoMemory, Share};
use wt_shards::{Blanks, Names, Of, Pass, Shards, Sought};

// Counts down with each share; the share that comes to 0 is refused.
type Left = Arc<AtomicU64, Global>;

/// A value that counts its shares.
#[derive(Drop)]
struct Scarce {
    key: u64,
    left: Left,
}

/// Contracts see its key: a share that is made has the same one.
impl Model for Scarce {
    ghost use Rattle.std.specs.Prelude.{ℕ};

    ghost Value = { ℕ };

    ghost view = { λ v. v.key };
}

impl Share for Scarce {
    fn share(&self) -> Result<Scarce, NoMemory> {
        if self.left.fetch_sub(1, Ordering::SeqCst) == 1 {
            return Err(NoMemory);
        }
        let left = Arc::try_clone(&self.left)?;
        let key = self.key;
        Ok(Scarce { key, left })
    }
}

impl Weighs for Scarce {
    ghost measure = { λ v. record { weight = 1; life = 0 } };

    fn measure(&self) -> Measure {
        Measure::lasting(1)
    }
}

impl Answers<u64> for Scarce {
    ghost use Rattle.std.specs.Prelude.{◌==◌};

    ghost answers = { λ v key. v == key };

    fn answers(&self, key: &u64) -> bool {
        self.key == *key
    }
}

/// A loader of such values.
#[derive(Drop)]
struct Scarcely {
    left: Left,
}

impl Loader<u64, Scarce> for Scarcely {
    fn load(&self, key: &u64) -> Result<Scarce, u32> {
        let Ok(left) = Arc::try_clone(&self.left) else {
            return Err(1);
        };
        let key = *key;
        Ok(Scarce { key, left })
    }
}

/// A cache of such values.
type Scarcity<N> = LoadingCache<u64, Scarce, Scarcely, Of<N>>;

/// A load that is open, if there is one.
type Open = Option<(Lead<u64, Scarce>, Ticket<u64, Scarce>)>;

// What asks for key 1.
#[derive(Clone, Copy, Debug, PartialEq, Eq)]
enum Who {
    // A caller that finds nothing in the cache.
    Caller,
    // A caller that finds key 5 alone, whose place in the window the value takes.
    Second,
    // A caller that finds the value.
    Hits,
    // A caller that finds the value, and it is due.
    Refreshes,
    // A caller that joins a load whose outcome is published, and which isn't landed yet.
    Sharer,
    // A worker, of a cache that holds key 5.
    Worker,
}

impl Who {
    // The moment at which it asks: a value is due 50 ms after it was put.
    fn moment(self) -> u64 {
        if self == Who::Refreshes { 50 } else { 0 }
    }
}

// Who asks, the share that is refused, what is answered then and when it is asked again; after each
// of the two the misses, the loads and the entries.
type Row = (Who, u64, Answer, [u64; 3], Answer, [u64; 3]);

type Answer = Result<How, Fault>;

// Where `How::Loaded` is a worker's, it reported one job without a failure, and its value was told.
fn rows() -> [Row; 15] {
    let refused = Err(Fault::NoMemory);
    let (hit, loaded, joined) = (Ok(How::Hit), Ok(How::Loaded), Ok(How::Joined));
    let refreshed = Ok(How::Refreshed);
    [
        // the value isn't stored; or it is, and its caller has none
        (Who::Caller, 1, loaded, [1, 1, 0], loaded, [2, 2, 1]),
        (Who::Caller, 2, refused, [1, 1, 1], hit, [1, 1, 1]),
        (Who::Caller, 3, loaded, [1, 1, 1], hit, [1, 1, 1]),
        // the second share is that of key 5, which has to move
        (Who::Second, 1, loaded, [1, 1, 1], loaded, [2, 2, 2]),
        (Who::Second, 2, loaded, [1, 1, 1], loaded, [2, 2, 2]),
        (Who::Second, 3, refused, [1, 1, 2], hit, [1, 1, 2]),
        // nothing has changed
        (Who::Hits, 1, refused, [0, 0, 1], hit, [0, 0, 1]),
        // nothing has changed; or the value that is there stays, and is due still
        (Who::Refreshes, 1, refused, [0, 0, 1], refreshed, [0, 1, 1]),
        (
            Who::Refreshes,
            2,
            refreshed,
            [0, 1, 1],
            refreshed,
            [0, 2, 1],
        ),
        (Who::Refreshes, 3, refreshed, [0, 1, 1], hit, [0, 1, 1]),
        // the load was opened by a miss, and is joined by two
        (Who::Sharer, 1, refused, [2, 0, 0], joined, [3, 0, 0]),
        (Who::Sharer, 2, joined, [2, 0, 0], joined, [3, 0, 0]),
        // the value isn't stored, and returned all the same
        (Who::Worker, 1, loaded, [1, 1, 1], loaded, [2, 2, 2]),
        (Who::Worker, 2, loaded, [1, 1, 1], loaded, [2, 2, 2]),
        (Who::Worker, 3, loaded, [1, 1, 2], hit, [1, 1, 2]),
    ]
}

// Puts the value of a key.
fn put<N: Names, R: Wait>(
    rt: &R,
    alloc: Global,
    shards: &Shards<u64, Scarce, Of<N>>,
    pass: &mut Pass<u64, Scarce, Of<N>>,
    key: u64,
    left: &Left,
) -> Result<(), Fault> {
    let mut notices = Notices::new(alloc, shards.entries() as usize)?;
    let left = Arc::try_clone(left)?;
    shards.put(rt, pass, key, Scarce { key, left }, 0, &mut notices)?;
    Ok(())
}

// Opens a load of key 1.
fn led<N: Names, R: Wait>(
    rt: &R,
    alloc: Global,
    shards: &Shards<u64, Scarce, Of<N>>,
    pass: &mut Pass<u64, Scarce, Of<N>>,
) -> Result<Open, Fault> {
    let mut notices = Notices::new(alloc, shards.entries() as usize)?;
    let done = shards.seek(rt, pass, 1, 0, &mut notices)?;
    match done.reply {
        Sought::Lead(lead, ticket) => Ok(Some((lead, ticket))),
        _ => Ok(None),
    }
}

// The state before any call: the load of key 1 is open.
fn begin<N: Names, R: Wait>(
    rt: &R,
    alloc: Global,
    shards: &Shards<u64, Scarce, Of<N>>,
    pass: &mut Pass<u64, Scarce, Of<N>>,
    who: Who,
    left: &Left,
) -> Result<Open, Fault> {
    match who {
        Who::Second | Who::Worker => put(rt, alloc, shards, pass, 5, left)?,
        Who::Hits | Who::Refreshes => put(rt, alloc, shards, pass, 1, left)?,
        Who::Caller | Who::Sharer => {}
    }
    match who {
        Who::Sharer | Who::Worker => led(rt, alloc, shards, pass),
        _ => Ok(None),
    }
}

// How key 1 is got.
fn gets<N: Names, R: Wait>(
    rt: &R,
    alloc: Global,
    cache: &Scarcity<N>,
    pass: &mut Pass<u64, Scarce, Of<N>>,
    now: u64,
) -> Answer {
    let mut notices = Notices::new(alloc, 2 * cache.entries() as usize)?;
    let got = cache.get(rt, pass, 1, now, &mut notices)?;
    Ok(got.how)
}

// Tells the value of an open load, which stays open.
fn tells(lead: Lead<u64, Scarce>, left: &Left) -> Result<(), Fault> {
    let key = lead.key();
    let left = Arc::try_clone(left)?;
    let _told = lead.publish(Outcome::Value(Scarce { key, left }));
    Ok(())
}

// A worker runs the load that is posted to the line, which is closed then: its ticket is told a
// value.
fn works<N: Names, R: Wait>(
    rt: &R,
    alloc: Global,
    cache: &Scarcity<N>,
    pass: &mut Pass<u64, Scarce, Of<N>>,
    lead: Lead<u64, Scarce>,
) -> Result<WorkerReport, Fault> {
    let Some(line) = cache.line() else {
        return Err(Fault::LineClosed);
    };
    let mut line_pass = line.pass(rt)?;
    let mut notices = Notices::new(alloc, cache.entries() as usize)?;
    let posted = line.post(rt, &mut line_pass, lead);
    line.close(rt);
    if posted.is_err() {
        return Err(Fault::LineFull);
    }
    Ok(cache.run_worker(rt, pass, &mut line_pass, &mut notices))
}

// The result of the first call.
fn first<N: Names, R: Wait>(
    rt: &R,
    alloc: Global,
    cache: &Scarcity<N>,
    pass: &mut Pass<u64, Scarce, Of<N>>,
    who: Who,
    open: Open,
    left: &Left,
) -> Answer {
    let Some((lead, mut ticket)) = open else {
        return gets(rt, alloc, cache, pass, who.moment());
    };
    if who == Who::Sharer {
        tells(lead, left)?;
        return gets(rt, alloc, cache, pass, 0);
    }
    let report = works(rt, alloc, cache, pass, lead)?;
    left.store(0, Ordering::SeqCst);
    let told = matches!(ticket.poll(), Ok(Some(Outcome::Value(_))));
    let one_job = WorkerReport {
        jobs: 1,
        failed: 0,
        removed: 0,
    };
    if told && report == one_job {
        Ok(How::Loaded)
    } else {
        Err(Fault::Mixed)
    }
}

// Misses, loads and entries.
fn numbers<N: Names, R: Wait>(rt: &R, cache: &Scarcity<N>) -> [u64; 3] {
    let stats = cache.stats(rt);
    [stats.misses, stats.loads, stats.entries]
}

// Asks twice, the first time with the row's share refused.
fn asked<N: Names, R: Wait + Abort>(
    rt: &R,
    alloc: Global,
    cache: &Scarcity<N>,
    pass: &mut Pass<u64, Scarce, Of<N>>,
    open: Open,
    left: &Left,
    row: Row,
) {
    let (who, share, answer, made, answer_again, made_again) = row;
    left.store(share, Ordering::SeqCst);
    let got = first(rt, alloc, cache, pass, who, open, left);
    same(
        rt,
        "who asks, share and answer",
        (who, share, got),
        (who, share, answer),
    );
    same(
        rt,
        "who asks, share and numbers",
        (who, share, numbers(rt, cache)),
        (who, share, made),
    );
    left.store(0, Ordering::SeqCst);
    let again = gets(rt, alloc, cache, pass, who.moment());
    same(
        rt,
        "who asks again, share and answer",
        (who, share, again),
        (who, share, answer_again),
    );
    same(
        rt,
        "who asks again, share and numbers",
        (who, share, numbers(rt, cache)),
        (who, share, made_again),
    );
}

// A line for a worker's load, where a worker asks.
fn line_for(alloc: Global, who: Who) -> Result<Option<JobLine<u64, Scarce>>, Fault> {
    if who == Who::Worker {
        Ok(Some(JobLine::new(alloc, 1)?))
    } else {
        Ok(None)
    }
}

// A pass, and what it began with.
fn begun<N: Names, R: Wait>(
    rt: &R,
    alloc: Global,
    shards: &Shards<u64, Scarce, Of<N>>,
    who: Who,
    left: &Left,
) -> Result<(Pass<u64, Scarce, Of<N>>, Open), Fault> {
    let mut pass = shards.pass(rt, alloc)?;
    match begin(rt, alloc, shards, &mut pass, who, left) {
        Ok(open) => Ok((pass, open)),
        Err(fault) => Err(fault),
    }
}

// Plays a row on these shards, with a line for its worker.
fn plays_on<N: Names, R: Wait + Abort>(
    rt: &R,
    alloc: Global,
    shards: Shards<u64, Scarce, Of<N>>,
    line: Option<JobLine<u64, Scarce>>,
    (left, theirs): (Left, Left),
    row: Row,
) -> Result<(), Fault> {
    let (mut pass, open) = begun(rt, alloc, &shards, row.0, &left)?;
    let cache: Scarcity<N> = LoadingCache::new(shards, Scarcely { left: theirs }, line);
    asked(rt, alloc, &cache, &mut pass, open, &left, row);
    Ok(())
}

// A count that two share.
fn shared(alloc: Global) -> Result<(Left, Left), Fault> {
    let left: Left = Arc::new(alloc, AtomicU64::new(0))?;
    let theirs = Arc::try_clone(&left)?;
    Ok((left, theirs))
}

// Plays a row on a cache of `count` shards. Keys 1 and 5 are of the last one.
fn played<N: Names, R: Wait + Abort>(
    rt: &R,
    alloc: Global,
    blanks: Blanks<u64, Scarce>,
    config: &Config,
    count: usize,
    row: Row,
) -> Result<(), Fault>
    requires layout { N.layout ≡ record { shards = count; config = config.now } }
    requires blanks { AreBlanksOf N.name N.book blanks }
{
    let both = shared(alloc)?;
    let line = line_for(alloc, row.0)?;
    let shards: Shards<u64, Scarce, Of<N>> = Shards::new(rt, alloc, blanks, config, count)?;
    plays_on(rt, alloc, shards, line, both, row)
}

// The one place that names the ledgers of these caches.
fn plays_at<R: Wait + Abort>(
    rt: &R,
    alloc: Global,
    config: &Config,
    count: usize,
    row: Row,
) -> Result<(), Fault> {
    played::<Brand, R>(rt, alloc, Blanks::new(), config, count, row)
}

#[test]
fn a_value_that_cannot_be_shared_is_not_stored(rt: HostRuntime) -> Result<(), Fail> {
    let config = Config::of(4).with_refresh(50);
    for row in rows() {
        plays_at(&rt, rt.alloc(), &config, 1, row)?;
        plays_at(&rt, rt.alloc(), &config, 4, row)?;
    }
    Ok(())
}
