// Refused memory: a call that is refused changes nothing and goes well when it is tried again, and
// a loaded value that can't be stored is answered all the same. At most one allocation is refused.
ghost use Rattle.std.specs.Prelude.{◌≡◌};
ghost use Rattle.wt_shards.specs.Opening.{AreBlanksOf};

use crate::tests::calls::{Answer, Led, forget, get, invalidate, led, present, put};
use crate::tests::compare::{holds, same};
use crate::tests::stage::{Cache, Plain, Rules, Version, Way, config, light, new_marks};
use crate::tests::workers::{close, posts, works_by};
use std::alloc::Global;
use std::marker::Brand;
use std::process::Abort;
use std::sync::Wait;
use std::test::Fail;
use wt_cache::{How, JobLine, LoadingCache};
use wt_core::{Config, Stats};
use wt_flights::{Outcome, Publish};
use wt_keys::Fault;
use wt_shards::{Blanks, Names, Of, Pass, Shards};

// The visible state of a cache of one shard, and of the caller's pass.
type Seen = (Stats, u64, u64);

fn seen<N: Names, R: Wait>(rt: &R, cache: &Cache<N>, pass: &Pass<u64, Version, Of<N>>) -> Seen {
    (cache.stats(rt), pass.steps(0), pass.hits(0))
}

// Gets a key, a second time where memory was refused: nothing had changed then.
fn insist<N: Names, R: Wait + Abort>(
    rt: &R,
    alloc: Global,
    cache: &Cache<N>,
    pass: &mut Pass<u64, Version, Of<N>>,
    key: u64,
) -> Answer {
    let before = seen(rt, cache, pass);
    let mut got = get(rt, alloc, cache, pass, key, 0);
    if got == Err(Fault::NoMemory) {
        same(
            rt,
            "what is seen after a refused get",
            seen(rt, cache, pass),
            before,
        );
        got = get(rt, alloc, cache, pass, key, 0);
    }
    got
}

// A call that loads nothing.
#[derive(Clone, Copy, Debug, PartialEq, Eq)]
enum Call {
    Put,
    Look,
    Drop,
    Forget,
}

// Makes the call: whether it found what it asks for.
fn make<N: Names, R: Wait>(
    rt: &R,
    alloc: Global,
    cache: &Cache<N>,
    pass: &mut Pass<u64, Version, Of<N>>,
    call: Call,
    key: u64,
) -> Result<bool, Fault> {
    match call {
        Call::Put => {
            let _step = put(rt, alloc, cache, pass, light(key, 7), 0)?;
            Ok(true)
        }
        Call::Look => {
            let (line, _step) = present(rt, alloc, cache, pass, key)?;
            Ok(line == Some(7))
        }
        Call::Drop => invalidate(rt, alloc, cache, pass, key),
        Call::Forget => forget(rt, alloc, cache, pass, key),
    }
}

// The calls on keys 11 and 12, and what they find, once nothing is refused.
fn calls() -> [(Call, u64, bool); 9] {
    [
        (Call::Look, 11, false),
        (Call::Put, 11, true),
        (Call::Put, 12, true),
        (Call::Look, 11, true),
        (Call::Look, 12, true),
        (Call::Drop, 11, true),
        (Call::Look, 11, false),
        (Call::Forget, 12, false),
        (Call::Drop, 12, true),
    ]
}

// Makes the calls, each a second time where memory was refused: nothing had changed then.
fn make_all<N: Names, R: Wait + Abort>(
    rt: &R,
    alloc: Global,
    cache: &Cache<N>,
    pass: &mut Pass<u64, Version, Of<N>>,
) {
    for (call, key, found) in calls() {
        let before = seen(rt, cache, pass);
        let mut told = make(rt, alloc, cache, pass, call, key);
        if told == Err(Fault::NoMemory) {
            same(
                rt,
                "what is seen after a refused call",
                seen(rt, cache, pass),
                before,
            );
            told = make(rt, alloc, cache, pass, call, key);
        }
        same(
            rt,
            "a call and its key, and whether it found it",
            (call, key, told),
            (call, key, Ok(found)),
        );
    }
}

// Gets a key until it is there: how many loads it took, each of which was answered.
fn loads_of<N: Names, R: Wait + Abort>(
    rt: &R,
    alloc: Global,
    cache: &Cache<N>,
    pass: &mut Pass<u64, Version, Of<N>>,
    key: u64,
) -> u64 {
    let before = cache.stats(rt).loads;
    for loads in 0..3u64 {
        let got = insist(rt, alloc, cache, pass, key);
        if got == Ok((How::Hit, 0)) {
            same(
                rt,
                "loads until the value is there",
                cache.stats(rt).loads,
                before.wrapping_add(loads),
            );
            return loads;
        }
        same(rt, "a get that loads", got, Ok((How::Loaded, 0)));
    }
    3
}

// The caller loads: a value that wasn't stored is loaded once more.
fn loads_itself<N: Names, R: Wait + Abort>(
    rt: &R,
    alloc: Global,
    cache: &Cache<N>,
    pass: &mut Pass<u64, Version, Of<N>>,
) {
    for key in 3..9u64 {
        let loads = loads_of(rt, alloc, cache, pass, key);
        holds(rt, "one load or two", loads == 1 || loads == 2);
    }
}

// The caller joins a load whose outcome is told, and which isn't landed yet.
fn shares<N: Names, R: Wait + Abort>(
    rt: &R,
    alloc: Global,
    cache: &Cache<N>,
    pass: &mut Pass<u64, Version, Of<N>>,
    open: Led,
) {
    let Some((lead, _ticket)) = open else {
        return;
    };
    let key = lead.key();
    let told = lead.publish(Outcome::Value(light(key, 5)));
    holds(
        rt,
        "the first outcome is published",
        matches!(told, Publish::Published(_)),
    );
    same(
        rt,
        "a get that joins",
        insist(rt, alloc, cache, pass, key),
        Ok((How::Joined, 5)),
    );
}

// A worker loads: its value is told, and loaded once more where it wasn't stored.
fn works<N: Names, R: Wait + Abort>(
    rt: &R,
    alloc: Global,
    cache: &Cache<N>,
    pass: &mut Pass<u64, Version, Of<N>>,
    open: Led,
) {
    let Some((lead, mut ticket)) = open else {
        return;
    };
    let key = lead.key();
    same(
        rt,
        "the line takes the load",
        posts(rt, cache, lead),
        Ok(true),
    );
    close(rt, cache);
    let mut report = works_by(rt, alloc, cache, pass);
    if report == Err(Fault::NoMemory) {
        report = works_by(rt, alloc, cache, pass);
    }
    same(
        rt,
        "the worker's jobs, failures and removals",
        report,
        Ok((1, 0, 0)),
    );
    let told = ticket.poll();
    holds(
        rt,
        "the ticket knows the worker's value",
        matches!(told, Ok(Some(Outcome::Value(Version { line: 0, .. })))),
    );
    holds(
        rt,
        "one more load at most",
        loads_of(rt, alloc, cache, pass, key) < 2,
    );
}

// The pass by itself, in a list whose memory may be refused once.
fn lone<N: Names>(
    alloc: Global,
    pass: Pass<u64, Version, Of<N>>,
) -> Result<Vec<Pass<u64, Version, Of<N>>>, Fault> {
    let mut passes = match Vec::with_capacity(alloc, 1) {
        Ok(passes) => passes,
        Err(_) => Vec::with_capacity(alloc, 1)?,
    };
    passes.push_reserved(pass);
    Ok(passes)
}

// Ends the cache: the steps and hits of the settled books. Settling takes no memory.
fn settled<N: Names, R: Wait>(
    rt: &R,
    alloc: Global,
    cache: Cache<N>,
    pass: Pass<u64, Version, Of<N>>,
) -> Result<Option<(u64, u64)>, Fault> {
    let passes = lone(alloc, pass)?;
    match cache.finish().settle(rt, alloc, passes) {
        Ok(totals) => Ok(totals.of(0).map(|total| (total.steps, total.hits))),
        Err(fault) => Err(fault),
    }
}

fn line_if(alloc: Global, lined: bool) -> Result<Option<JobLine<u64, Version>>, Fault> {
    if lined {
        Ok(Some(JobLine::new(alloc, 1)?))
    } else {
        Ok(None)
    }
}

// Plays on a cache whose two loads are open, of which the first stands in the line if there is one.
fn plays_on<N: Names, R: Wait + Abort>(
    rt: &R,
    alloc: Global,
    cache: &Cache<N>,
    pass: &mut Pass<u64, Version, Of<N>>,
    (posted, told): (Led, Led),
) {
    if cache.line().is_some() {
        works(rt, alloc, cache, pass, posted);
    }
    make_all(rt, alloc, cache, pass);
    shares(rt, alloc, cache, pass, told);
    loads_itself(rt, alloc, cache, pass);
}

// The loads of keys 1 and 2.
fn leads<N: Names, R: Wait>(
    rt: &R,
    alloc: Global,
    shards: &Plain<N>,
    pass: &mut Pass<u64, Version, Of<N>>,
) -> Result<(Led, Led), Fault> {
    let one = led(rt, alloc, shards, pass, 1)?;
    let two = led(rt, alloc, shards, pass, 2)?;
    Ok((one, two))
}

// A pass, and the loads of keys 1 and 2 that it led.
fn led_two<N: Names, R: Wait>(
    rt: &R,
    alloc: Global,
    shards: &Plain<N>,
) -> Result<(Pass<u64, Version, Of<N>>, (Led, Led)), Fault> {
    let mut pass = shards.pass(rt, alloc)?;
    match leads(rt, alloc, shards, &mut pass) {
        Ok(both) => Ok((pass, both)),
        Err(fault) => Err(fault),
    }
}

// Plays on a cache of one shard, with a line that is closed before the caller loads, or without.
fn played<N: Names, R: Wait + Abort>(
    rt: &R,
    alloc: Global,
    blanks: Blanks<u64, Version>,
    config: &Config,
    lined: bool,
) -> Result<(), Fault>
    requires layout { N.layout ≡ record { shards = 1; config = config.now } }
    requires blanks { AreBlanksOf N.name N.book blanks }
{
    let way = Way::Plain;
    let marks = new_marks(alloc)?;
    let line = line_if(alloc, lined)?;
    let shards: Plain<N> = Shards::new(rt, alloc, blanks, config, 1)?;
    let (mut pass, both) = led_two(rt, alloc, &shards)?;
    let cache: Cache<N> = LoadingCache::new(shards, Rules { way, marks }, line);
    plays_on(rt, alloc, &cache, &mut pass, both);
    let shown = Some((pass.steps(0), pass.hits(0)));
    same(
        rt,
        "the books' steps and hits",
        settled(rt, alloc, cache, pass),
        Ok(shown),
    );
    Ok(())
}

// The one place that names the ledgers of these caches.
fn plays_at<R: Wait + Abort>(
    rt: &R,
    alloc: Global,
    config: &Config,
    lined: bool,
) -> Result<(), Fault> {
    played::<Brand, R>(rt, alloc, Blanks::new(), config, lined)
}

// Plays, a second time where memory was refused before there was a cache.
fn plays<R: Wait + Abort>(rt: &R, alloc: Global, lined: bool) -> Result<(), Fault> {
    let limits = Config {
        ring: 4,
        ..config(4, 3, None)
    };
    if plays_at(rt, alloc, &limits, lined) == Err(Fault::NoMemory) {
        return plays_at(rt, alloc, &limits, lined);
    }
    Ok(())
}

#[test]
fn a_get_that_is_refused_memory_changes_nothing(rt: HostRuntime) -> Result<(), Fail> {
    plays(&rt, rt.alloc(), false)?;
    plays(&rt, rt.alloc(), true)?;
    Ok(())
}
