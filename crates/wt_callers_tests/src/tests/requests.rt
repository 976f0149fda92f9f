// Requests of one session, each by a caller of its own: what two of them put at once, the next one
// reads. On one shard and on four.
ghost use Rattle.std.specs.Prelude.{◌≡◌};
ghost use Rattle.wt_shards.specs.Opening.{AreBlanksOf};

use super::compare::same;
use super::lending::{Lender, Number, Zeros};
use std::alloc::Global;
use std::marker::Brand;
use std::sync::{Mutex, Wait};
use std::test::Fail;
use std::thread;
use std::thread::Threads;
use wt_cache::{Callers, Keyed, LoadingCache};
use wt_core::{Config, Reply};
use wt_keys::Fault;
use wt_shards::{Blanks, Names, Of, Shards, Sight};

// What the requests of a session have seen.
type Session<N> = Mutex<Sight<u64, Number, Of<N>>>;

// A request that puts ten times its key under it, and leaves its sight with the session.
fn put<N: Names, R: Wait>(
    rt: &R,
    callers: &Lender<N>,
    session: &Session<N>,
    key: u64,
) -> Result<(), Fault> {
    let value = key.wrapping_mul(10);
    let mut caller = callers.lend(rt)?;
    let stored = caller.put(key, Keyed { key, value }, 0);
    let sight = caller.give_back();
    session.lock(rt).learn(&sight);
    stored?;
    Ok(())
}

// A request that learns what the session has seen, and looks two keys up: their values.
fn read<N: Names, R: Wait>(
    rt: &R,
    callers: &Lender<N>,
    session: &Session<N>,
    keys: (u64, u64),
) -> Result<[Option<u64>; 2], Fault> {
    let sight = session.lock(rt).again();
    let mut caller = callers.lend(rt)?;
    caller.learn(&sight);
    let one = caller.get_if_present(keys.0, 0);
    let other = caller.get_if_present(keys.1, 0);
    let last = caller.sight();
    caller.learn(&last);
    caller.give_back();
    Ok([hit(one?.reply), hit(other?.reply)])
}

// The number that a look-up hits.
fn hit(found: Reply<Number>) -> Option<u64> {
    match found {
        Reply::Hit(number) => Some(number.value),
        _ => None,
    }
}

// Two requests put at once, each in a thread of its own, and a third one reads both.
fn requests<N: Names + Send + Sync, R: Threads + Wait + Sync>(
    rt: &R,
    callers: &Lender<N>,
) -> Result<[Option<u64>; 2], Fault> {
    let session: Session<N> = Mutex::new(Sight::new());
    let (one, other) = thread::join(
        rt,
        || put(rt, callers, &session, 1),
        || put(rt, callers, &session, 2),
    );
    one?;
    other?;
    read(rt, callers, &session, (1, 2))
}

fn requests_at<N: Names + Send + Sync, R: Threads + Wait + Sync>(
    rt: &R,
    alloc: Global,
    blanks: Blanks<u64, Number>,
    config: &Config,
    count: usize,
) -> Result<[Option<u64>; 2], Fault>
    requires layout { N.layout ≡ record { shards = count; config = config.now } }
    requires blanks { AreBlanksOf N.name N.book blanks }
{
    let shards: Shards<u64, Number, Of<N>> = Shards::new(rt, alloc, blanks, config, count)?;
    let callers: Lender<N> = Callers::new(alloc, LoadingCache::new(shards, Zeros {}, None));
    requests(rt, &callers)
}

// The one place that names the ledgers of these caches.
fn requests_on<R: Threads + Wait + Sync>(
    rt: &R,
    alloc: Global,
    config: &Config,
    count: usize,
) -> Result<[Option<u64>; 2], Fault> {
    requests_at::<Brand, R>(rt, alloc, Blanks::new(), config, count)
}

#[test]
fn requests_of_one_session_read_what_both_have_put(rt: HostRuntime) -> Result<(), Fail> {
    let config = Config::of(4);
    for count in [1, 4] {
        let read = requests_on(&rt, rt.alloc(), &config, count);
        same(&rt, "the numbers", read, Ok([Some(10), Some(20)]));
    }
    Ok(())
}
