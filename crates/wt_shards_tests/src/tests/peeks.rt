// Four threads put, take away, read and peek at eight keys: no peek or read finds what a call that had
// ended before it began took away.
ghost use Rattle.std.specs.Prelude.{◌≡◌, ◌≤◌};
ghost use Rattle.wt_shards.specs.Opening.{AreBlanksOf};

use super::compare::{holds, same};
use super::config;
use std::alloc::Global;
use std::marker::Brand;
use std::process::Abort;
use std::sync::Wait;
use std::sync::atomic::{AtomicU64, Ordering};
use std::test::Fail;
use std::thread;
use std::thread::Threads;
use wt_core::{Config, Notices};
use wt_keys::{Fault, NoMemory};
use wt_shards::{Blanks, Names, Of, Pass, Shards};
use wt_tests::{Dice, Loaded, light};

// How many threads call, and the calls of each. One call in eight is a put or a removal.
const CALLERS: usize = 4;

const CALLS: u64 = 5_000;

const KEYS: u64 = 8;

// The cache.
type Cache<N> = Shards<u64, Loaded, Of<N>>;

// Of each key the last version that was taken away. One thread alone puts a key and takes it away.
type Marks = Vec<AtomicU64>;

// How many peeks and reads found a value, and how many found one that was gone.
#[derive(Clone, Copy)]
struct Seen {
    found: u64,
    gone: u64,
}

fn new_marks(alloc: Global) -> Result<Marks, NoMemory> {
    let mut marks = Vec::new(alloc);
    for _ in 0..KEYS {
        marks.push(AtomicU64::new(0))?;
    }
    Ok(marks)
}

// The version of a key that was taken away last.
fn gone_of(marks: &Marks, key: u64) -> u64 {
    match marks.get(key as usize) {
        Some(mark) => mark.load(Ordering::SeqCst),
        None => 0,
    }
}

// Puts an odd version of a key. Takes the one before an even version away, and marks that.
fn change<N: Names, R: Wait>(
    rt: &R,
    shards: &Cache<N>,
    pass: &mut Pass<u64, Loaded, Of<N>>,
    left: &mut Notices<u64, Loaded>,
    marks: &Marks,
    key: u64,
    version: u64,
) -> Result<(), Fault>
    requires room { shards.now.config.entries ≤ left.old.room }
{
    if version % 2 == 1 {
        shards.put(rt, pass, key, light(version), 0, left)?;
        return Ok(());
    }
    shards.drop_key(rt, pass, key, 0, left)?;
    if let Some(mark) = marks.get(key as usize) {
        mark.store(version, Ordering::SeqCst);
    }
    Ok(())
}

// Reads a key, or peeks at it, and counts what is found.
fn look<N: Names, R: Wait>(
    rt: &R,
    alloc: Global,
    shards: &Cache<N>,
    pass: &mut Pass<u64, Loaded, Of<N>>,
    marks: &Marks,
    reads: bool,
    key: u64,
    seen: &mut Seen,
) -> Result<(), Fault> {
    let mut left = Notices::new(alloc, shards.entries() as usize)?;
    let gone = gone_of(marks, key);
    let found = if reads {
        shards.read(rt, pass, key, 0, &mut left)?
    } else {
        shards.peek(rt, pass, key, 0)?
    };
    if let Some(value) = found {
        seen.found = seen.found.wrapping_add(1);
        if value.version <= gone {
            seen.gone = seen.gone.wrapping_add(1);
        }
    }
    Ok(())
}

// The call of this number by a thread. Each thread changes two keys of its own, in turn.
fn call<N: Names, R: Wait>(
    rt: &R,
    alloc: Global,
    shards: &Cache<N>,
    pass: &mut Pass<u64, Loaded, Of<N>>,
    marks: &Marks,
    thread: u64,
    number: u64,
    key: u64,
    seen: &mut Seen,
) -> Result<(), Fault> {
    if number % 8 > 0 {
        let reads = number % 2 == 1;
        return look(rt, alloc, shards, pass, marks, reads, key, seen);
    }
    let turn = number / 8;
    let own = (thread % 4) * 2 + (turn / 2) % 2;
    let mut left = Notices::new(alloc, shards.entries() as usize)?;
    change(
        rt,
        shards,
        pass,
        &mut left,
        marks,
        own,
        turn.wrapping_add(1),
    )
}

// A thread's calls, with a pass of its own.
fn calls<N: Names, R: Wait>(
    rt: &R,
    alloc: Global,
    shards: &Cache<N>,
    marks: &Marks,
    thread: usize,
) -> Result<Seen, Fault> {
    let mut dice = Dice((thread as u64).wrapping_add(1));
    let mut seen = Seen { found: 0, gone: 0 };
    let mut pass = shards.pass(rt, alloc)?;
    for number in 0..CALLS {
        let key = dice.roll(KEYS);
        call(
            rt,
            alloc,
            shards,
            &mut pass,
            marks,
            thread as u64,
            number,
            key,
            &mut seen,
        )?;
    }
    Ok(seen)
}

// The calls of all threads.
fn call_all<N: Names + Send + Sync, R: Threads + Wait + Sync>(
    rt: &R,
    alloc: Global,
    shards: &Cache<N>,
    marks: &Marks,
) -> Result<Vec<Result<Seen, Fault>>, Fault> {
    let ran = thread::map_indices(
        rt,
        alloc,
        CALLERS,
        &|thread: usize| -> Result<Seen, Fault> { calls(rt, alloc, shards, marks, thread) },
    )?;
    Ok(ran)
}

// What all threads saw together.
fn soak<N: Names + Send + Sync, R: Threads + Wait + Sync>(
    rt: &R,
    alloc: Global,
    blanks: Blanks<u64, Loaded>,
    limits: &Config,
    shards: usize,
) -> Result<Seen, Fault>
    requires layout { N.layout ≡ record { shards = shards; config = limits.now } }
    requires blanks { AreBlanksOf N.name N.book blanks }
{
    let marks = new_marks(alloc)?;
    let cache: Cache<N> = Shards::new(rt, alloc, blanks, limits, shards)?;
    let mut all = Seen { found: 0, gone: 0 };
    for one in call_all(rt, alloc, &cache, &marks)? {
        let seen = one?;
        all.found = all.found.wrapping_add(seen.found);
        all.gone = all.gone.wrapping_add(seen.gone);
    }
    Ok(all)
}

// The one place that names the ledgers of these shards.
fn soaks<R: Threads + Wait + Sync>(rt: &R, alloc: Global, shards: usize) -> Result<Seen, Fault> {
    let limits = Config {
        entries: 16,
        ..config(100)
    };
    soak::<Brand, R>(rt, alloc, Blanks::new(), &limits, shards)
}

fn expect_none_gone(rt: &impl Abort, seen: Result<Seen, Fault>) {
    match seen {
        Ok(seen) => {
            same(rt, "what was found and gone", seen.gone, 0);
            holds(rt, "much is found", seen.found > 1_000);
        }
        Err(fault) => same(rt, "no fault", Some(fault), None),
    }
}

#[test]
fn no_read_finds_what_was_taken_away_before_it(rt: HostRuntime) -> Result<(), Fail> {
    expect_none_gone(&rt, soaks(&rt, rt.alloc(), 1));
    expect_none_gone(&rt, soaks(&rt, rt.alloc(), 4));
    Ok(())
}
