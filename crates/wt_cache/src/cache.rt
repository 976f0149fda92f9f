// The loading cache, how it is opened, and its reads.
ghost use Rattle.std.specs.Prelude.{◌≡◌, ◌+◌, ◌*◌, ◌≤◌, ◌==◌, ◌||◌, IfOk, IfErr, IsTrue, is_some};
ghost use Rattle.wt_keys.specs.declared.fault.Fault.TheVariants as fault;
ghost use Rattle.wt_shards.specs.Members.{members_of};
ghost use Rattle.wt_shards.specs.Numbers.{AreSeenNumbers, AreWithin};
ghost use Rattle.wt_shards.specs.Passes.{new_pass};

mod calls;
mod get;

use crate::job_line::JobLine;
use crate::loader::Loader;
use std::alloc::Global;
use std::marker::Model;
use std::sync::Wait;
use wt_core::Stats;
use wt_keys::{CacheKey, Fault};
use wt_shards::{Books, Pass, Shards, Value};

/// A cache that any number of threads share, and that loads what isn't there: one load for all
/// callers that ask for a key at once.
///
/// A load is run by the caller whose seek opened it, or, if the cache has a line, by a worker.
#[derive(Drop)]
pub struct LoadingCache<K: CacheKey, V: Value<K>, L: Loader<K, V> + Drop, B: Books> {
    // The entries and the open loads, behind their locks.
    pub(crate) shards: Shards<K, V, B>,
    pub(crate) loader: L,
    // Where loads wait for workers; without it each caller runs its own.
    pub(crate) line: Option<JobLine<K, V>>,
}

impl<K: CacheKey, V: Value<K>, L: Loader<K, V> + Drop, B: Books> Model
    for LoadingCache<K, V, L, B> {
    ghost use Rattle.std.specs.Prelude.{is_some};
    ghost use Rattle.wt_cache.specs.Cached.{Cached};

    ghost Value = { Cached };

    ghost view = { λ c. record { layout = c.shards; lined = is_some c.line } };
}

impl<K: CacheKey, V: Value<K>, L: Loader<K, V> + Drop, B: Books> LoadingCache<K, V, L, B> {
    /// Makes a cache over these shards, with a line if loads are to be run by workers.
    ///
    /// Loads that are open already stay so: their leads are to be abandoned or posted. Takes no
    /// memory.
    ///
    /// In use: `uses::lines::new`.
    pub fn new(
        shards: Shards<K, V, B>,
        loader: L,
        line: Option<JobLine<K, V>>,
    ) -> LoadingCache<K, V, L, B>
        ensures { result ≡ record { layout = shards; lined = is_some line } }
    {
        LoadingCache {
            shards,
            loader,
            line,
        }
    }

    /// Gives out a caller's pass, which counts no step yet.
    ///
    /// `PassesSpent` only after 65,535 of them. Takes no memory, and each shard's lock in turn.
    pub fn pass<R: Wait>(&self, rt: &R, alloc: Global) -> Result<Pass<K, V, B>, Fault>
        ensures ok { IfOk result (λ pass. pass ≡ new_pass self.now.layout.shards) }
        ensures faults { IfErr result (λ f. f ≡ fault.PassesSpent) }
    {
        self.shards.pass(rt, alloc)
    }

    /// Returns the numbers of all shards, added up.
    ///
    /// Takes each shard's lock in turn, so another thread may move between two of them.
    ///
    /// In use: `uses::lines::stats`.
    pub fn stats<R: Wait>(&self, rt: &R) -> Stats
        ensures looked { result.hits + result.misses ≡ result.lookups }
        ensures within { AreWithin (self.now.layout.shards * self.now.layout.config.entries)
            (self.now.layout.shards * self.now.layout.config.bound) result }
    {
        self.shards.stats(rt)
    }

    /// Returns the numbers of all shards, added up: of each shard those that it has after all calls
    /// which the pass then has seen there. So they count each call that the pass had seen.
    ///
    /// Is no step, and the pass doesn't count it. Takes no memory. Takes each shard's lock in turn,
    /// so another thread may move between two of them.
    ///
    /// In use: `uses::lines::seen_stats`.
    pub fn seen_stats<R: Wait>(&self, rt: &R, pass: &mut Pass<K, V, B>) -> Stats
        ensures made { AreSeenNumbers (members_of K.CacheKey V.Value) self.now.layout pass.old
            pass.new result }
    {
        self.shards.seen_stats(rt, pass)
    }

    /// Returns how many entries one shard may hold. Takes no lock. O(1).
    pub fn entries(&self) -> u32
        ensures { result ≡ self.now.layout.config.entries }
    {
        self.shards.entries()
    }

    /// Returns how many shards there are: 1, 2 or 4. Takes no lock. O(1).
    pub fn shards(&self) -> usize
        ensures value { result ≡ self.now.layout.shards }
        ensures few { result ≤ 4 }
        ensures within { IsTrue (result == 1 || (result == 2 || result == 4)) }
    {
        self.shards.shards()
    }

    /// Returns the line of the loads for workers, if the cache has one. Takes no lock. O(1).
    pub fn line(&self) -> Option<&JobLine<K, V>>
        ensures { is_some result ≡ self.now.lined }
    {
        self.line.as_ref()
    }

    /// Ends the cache, and returns its shards, for `settle`. The loader and the line are dropped.
    ///
    /// A load that is in the line still is never run: its ticket then waits for good. Takes no
    /// lock.
    ///
    /// In use: `uses::lines::finish`.
    pub fn finish(self) -> Shards<K, V, B>
        ensures { result ≡ self.layout }
    {
        let LoadingCache {
            shards,
            loader: _,
            line: _,
        } = self;
        shards
    }
}
