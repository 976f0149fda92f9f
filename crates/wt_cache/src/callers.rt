// A cache with the callers that it lends.
//
//   lend ──► a pass and a list that came back, or new ones ──► calls ──► give_back
//
// Shards give out a pass once, and never take it back. So the lender keeps the passes of its
// callers.
ghost use Rattle.std.specs.Prelude.{◌≡◌, ◌⊎◌, ◌+◌, [], IfOk, IfErr, length};
ghost use Rattle.wt_keys.specs.declared.fault.Fault.TheVariants as fault;

use crate::cache::LoadingCache;
use crate::caller::Caller;
use crate::idle::{Idle, Loan, Returned};
use crate::loader::Loader;
use std::alloc::Global;
use std::marker::Model;
use std::sync::{Mutex, Wait};
use wt_core::Notices;
use wt_keys::{CacheKey, Fault};
use wt_shards::{Books, Pass, Shards, Value};

/// A cache that lends callers to threads, as many at once as its shards give out passes: 65,535.
///
/// A caller that is given back leaves its pass and its list to the next one that is lent. So a
/// server may lend one for each request, for as long as the cache lives. What a request is to see of
/// an earlier one goes from `Caller::give_back` to `Caller::learn`, as a `Sight`.
pub struct Callers<K: CacheKey, V: Value<K>, L: Loader<K, V> + Drop, B: Books> {
    cache: LoadingCache<K, V, L, B>,
    // Under its lock no other one is taken.
    idle: Mutex<Idle<K, V, B>>,
    // For passes, and for the lists of entries that left.
    alloc: Global,
}

impl<K: CacheKey, V: Value<K>, L: Loader<K, V> + Drop, B: Books> Model for Callers<K, V, L, B> {
    ghost use Rattle.wt_cache.specs.Cached.{Cached};

    ghost Value = { Cached };

    ghost view = { λ c. c.cache };
}

impl<K: CacheKey, V: Value<K>, L: Loader<K, V> + Drop, B: Books> Drop for Callers<K, V, L, B> {
    fn drop(self) {
        let Callers {
            cache: _,
            idle,
            alloc: _,
        } = self;
        let _passes = Returned::of(idle.into_inner()).passes();
    }
}

impl<K: CacheKey, V: Value<K>, L: Loader<K, V> + Drop, B: Books> Callers<K, V, L, B> {
    /// Makes the lender of a cache's callers. Takes no memory.
    pub fn new(alloc: Global, cache: LoadingCache<K, V, L, B>) -> Callers<K, V, L, B>
        ensures { result ≡ cache }
    {
        Callers {
            cache,
            idle: Mutex::new(Idle::new(alloc)),
            alloc,
        }
    }

    /// Returns the cache, for the calls that need no caller. Takes no lock. O(1).
    pub fn cache(&self) -> &LoadingCache<K, V, L, B>
        ensures { result.now ≡ self.now }
    {
        &self.cache
    }

    /// Lends a caller, until `Caller::give_back`. Its pass may also count the steps of earlier
    /// callers that had it. It has seen what they had seen, but no clause says which these were: let
    /// it `learn` the sight of each caller whose calls it is to follow.
    ///
    /// `NoMemory` comes before `PassesSpent`, which comes only while 65,535 passes are lent or
    /// were taken by `LoadingCache::pass`. Takes memory only if more are lent than ever before: for
    /// `2 * entries` notices, and for the room to come back to. Takes the lock of the lender, and
    /// then, for a new pass, each shard's in turn. Not promised: that it returns.
    ///
    /// In use: `uses::callers::lend`.
    pub fn lend<'c, R: Wait>(&'c self, rt: &'c R) -> Result<Caller<'c, K, V, L, B, R>, Fault>
        ensures ok { IfOk result (λ caller. (caller.cache ≡ self.now) × (caller.left.list ≡ [])) }
        ensures faults { IfErr result (λ f. (f ≡ fault.NoMemory) ⊎ (f ≡ fault.PassesSpent)) }
    {
        let room = 2 * self.cache.entries() as usize;
        let mut idle = self.idle.lock(rt);
        let left = idle.list(self.alloc, room)?;
        let lent = idle.pass()?;
        drop(idle);
        let (pass, loan) = match lent {
            Some(lent) => lent,
            None => (self.cache.pass(rt, self.alloc)?, Loan::first()),
        };
        Ok(Caller::new(rt, self, pass, left, loan))
    }

    // Takes back a caller's pass and its list.
    pub(crate) fn take_back<R: Wait>(
        &self,
        rt: &R,
        loan: Loan,
        pass: Pass<K, V, B>,
        left: Notices<K, V>,
    ) {
        // Before the lock: dropping values is the values' own code.
        let mut left = left;
        left.empty();
        if self.idle.lock(rt).take_in(loan, pass, left).is_err() {
            // The loan is one of this lender's, so this case can't come. The types can't say so.
            for _ in rt.forever() {}
            unreachable!()
        }
    }

    /// Ends the cache, and returns its shards and all passes, for `settle`. A caller borrows, so
    /// all of them were given back by now.
    ///
    /// The loader and the line are dropped, as `LoadingCache::finish` does it. Takes no memory and
    /// no lock.
    pub fn finish(self) -> (Shards<K, V, B>, Returned<K, V, B>)
        ensures shards { result.0 ≡ self.layout }
        // No pass is lost: each that came back is there, but for those that are lent again.
        ensures back { result.1.came ≡ length result.1.passes + result.1.lent }
    {
        let Callers {
            cache,
            idle,
            alloc: _,
        } = self;
        (cache.finish(), Returned::of(idle.into_inner()))
    }
}
