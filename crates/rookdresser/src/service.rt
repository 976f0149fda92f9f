// One call that makes a cache, and runs threads over it.
ghost use Rattle.std.specs.Prelude.{◌≡◌, Ok, Err, MatchOption, OnOk};
ghost use Rattle.wt_keys.specs.declared.fault.Fault.TheVariants as fault;
ghost use Rattle.wt_core.specs.InRange.{IsInRange};
ghost use Rattle.wt_shards.specs.Opening.{layout_fault};
ghost use Rattle.wt_cache.specs.Contract.{IsServed};
ghost use Rattle.rookdresser.specs.Services.{answers_in};

use crate::cache::Cache;
use crate::clock::Clock;
use crate::world::{Chosen, World};
use std::alloc::Global;
use std::sync::{Mutex, Wait};
use std::thread::Threads;
use wt_cache::{Caller, Followers, Loader, Tally};
use wt_core::Config;
use wt_keys::{CacheKey, Fault, Field, NoMemory};
use wt_shards::{Books, Value};

// From this many entries of a shard on its window follows the stream: the adviser takes no fewer.
const FOLLOWS_FROM: u32 = 64;

/// A source of values, and the work of each thread with a cache in front of it.
pub trait Service<K: CacheKey, V: Value<K> + Copy>: Loader<K, V> {
    ghost use Rattle.std.specs.Prelude.{⊤, ℕ, Result};
    ghost use Rattle.wt_keys.specs.declared.fault.Fault.{Fault};

    /// The result of a thread's work.
    type Answer: Send + Drop;

    /// The results that the work of a thread may have, by its number: all, unless the service
    /// narrows them.
    ghost gives: { Self → ℕ → Result Self.Answer Fault → Type 0 } = { λ _ _ _. ⊤ };

    /// Does the work of one thread, by its number from 0. `serve` returns its result.
    ///
    /// It is called in each thread at once. Not promised: that it returns.
    fn work<W: World<K, V>>(
        &self,
        thread: usize,
        cache: &mut Cache<K, V, W>,
    ) -> Result<Self::Answer, Fault>
        ensures { gives self.now thread result };
}

/// What the threads of a service returned, by their numbers, and what their calls met, added up.
#[derive(Drop)]
pub struct Served<A> {
    /// The result of each thread's work.
    pub answers: Vec<Result<A, Fault>>,
    /// The counts of all threads' calls.
    pub tally: Tally,
}

/// A program may lend its service.
impl<K: CacheKey, V: Value<K> + Copy, S: Service<K, V>> Service<K, V> for &S {
    type Answer = S::Answer;

    ghost gives = { λ service. S.gives service.now };

    fn work<W: World<K, V>>(
        &self,
        thread: usize,
        cache: &mut Cache<K, V, W>,
    ) -> Result<S::Answer, Fault> {
        (**self).work(thread, cache)
    }
}

// The counts of the threads, by their numbers. Each thread writes its own, once.
#[derive(Drop)]
struct Tallies {
    all: Vec<Mutex<Tally>>,
}

impl Tallies {
    // Nothing is counted yet.
    fn new(alloc: Global, threads: usize) -> Result<Tallies, NoMemory> {
        let mut all = Vec::with_capacity(alloc, threads)?;
        for _ in 0..threads {
            all.push(Mutex::new(Tally::NOTHING))?;
        }
        Ok(Tallies { all })
    }

    // Keeps the counts of a thread.
    fn keep(&self, thread: usize, tally: Tally) {
        if let Some(place) = self.all.get(thread) {
            if let Some(mut held) = place.try_lock() {
                *held = tally;
            }
        }
    }

    // Returns the counts of all threads, added up.
    fn total(self) -> Tally {
        let mut total = Tally::NOTHING;
        for place in self.all {
            total = total.plus(&place.into_inner());
        }
        total
    }
}

// What the caches of all threads share, beside the service and its clock.
#[derive(Drop)]
struct Shared<K: CacheKey> {
    followers: Option<Followers<K>>,
    reads: bool,
    alloc: Global,
    tallies: Tallies,
}

impl<K: CacheKey> Shared<K> {
    // What the caches of so many threads share.
    fn new(
        alloc: Global,
        config: &Config,
        shards: usize,
        threads: usize,
    ) -> Result<Shared<K>, NoMemory>
        requires within { IsInRange config.now }
    {
        let tallies = Tallies::new(alloc, threads)?;
        let mut followers = None;
        if config.entries >= FOLLOWS_FROM {
            match Followers::new(alloc, config, shards) {
                Ok(made) => followers = Some(made),
                Err(_) => return Err(NoMemory),
            }
        }
        Ok(Shared {
            followers,
            reads: config.refresh.is_none(),
            alloc,
            tallies,
        })
    }
}

// A borrow of what is shared. It stands for `&Shared<K>` in the types that `serve` chooses: the borrow
// checker doesn't follow a lifetime that is written in them.
trait Lent<K: CacheKey>: Copy + Send + Sync {
    fn shared(&self) -> &Shared<K>;
}

impl<K: CacheKey> Lent<K> for &Shared<K> {
    fn shared(&self) -> &Shared<K> {
        *self
    }
}

// A service as wt_cache calls it.
#[derive(Clone, Copy)]
struct Adapted<S, T, H> {
    service: S,
    clock: T,
    lent: H,
}

impl<K: CacheKey, V: Value<K> + Copy, S: Service<K, V>, T, H> Loader<K, V> for Adapted<S, T, H> {
    ghost may_return = { λ adapted. S.may_return adapted.service };

    fn load(&self, key: &K) -> Result<V, u32> {
        self.service.load(key)
    }
}

impl<
    K: CacheKey,
    V: Value<K> + Copy,
    S: Service<K, V> + Copy,
    T: Clock + Copy,
    H: Lent<K>,
> wt_cache::Service<K, V> for Adapted<S, T, H> {
    type Answer = S::Answer;

    ghost gives = { λ adapted. S.gives adapted.service };

    fn work<B: Books, R: Wait>(
        &self,
        thread: usize,
        caller: &mut Caller<K, V, Self, B, R>,
    ) -> Result<S::Answer, Fault> {
        let shared = self.lent.shared();
        let mut cache: Cache<K, V, Chosen<Self, B, R, T>> = Cache {
            caller,
            followers: shared.followers.as_ref(),
            unseen: None,
            reads: shared.reads,
            clock: self.clock,
            alloc: shared.alloc,
            tally: Tally::NOTHING,
        };
        let answer = self.service.work(thread, &mut cache);
        shared.tallies.keep(thread, cache.tally);
        answer
    }
}

// Checks the number of shards, and then the configuration, before any memory is asked for.
fn check(config: &Config, shards: usize) -> Result<(), Fault>
    ensures within { OnOk result (IsInRange config.now) }
    ensures refusal { MatchOption (layout_fault shards config.now)
        (result ≡ Ok tt) (λ field. result ≡ Err (fault.BadConfig field)) }
{
    if shards != 1 && (shards != 2 && shards != 4) {
        return Err(Fault::BadConfig {
            field: Field::Shards,
        });
    }
    config.check()
}

/// Makes a cache of `shards` shards in front of the service, runs `threads` threads over it, and
/// returns the result of each, by its number, with the counts of all their calls. `shards` is 1, 2 or
/// 4, and the configuration is that of each shard.
///
/// From 64 entries a shard on the windows follow the stream. The values are `Copy`, so that threads
/// read a shard beside each other.
///
/// `BadConfig` of the shards comes before that of the configuration's fields, and both before memory
/// is asked for. If a thread gets no caller, its own result is `NoMemory` or `PassesSpent`. If no
/// thread can be made, the work is done one after another. Not promised: that it returns.
pub fn serve<
    K: CacheKey,
    V: Value<K> + Copy,
    S: Service<K, V> + Sync,
    T: Clock + Sync,
    R: Threads + Wait + Sync,
>(
    rt: &R,
    alloc: Global,
    config: &Config,
    shards: usize,
    threads: usize,
    service: &S,
    clock: &T,
) -> Result<Served<S::Answer>, Fault>
    ensures made { IsServed (S.gives service.now) config.now shards threads (answers_in result) }
{
    if let Err(fault) = check(config, shards) {
        return Err(fault);
    }
    let shared = Shared::new(alloc, config, shards, threads)?;
    let adapted = Adapted {
        service,
        clock,
        lent: &shared,
    };
    let answers = wt_cache::serve(rt, alloc, config, shards, threads, adapted)?;
    let tally = shared.tallies.total();
    Ok(Served { answers, tally })
}
