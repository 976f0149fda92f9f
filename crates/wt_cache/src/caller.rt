// A thread's way to a cache: its pass, and the list of entries that left.
ghost use Rattle.std.specs.Prelude.{◌≡◌, ◌*◌, ◌≤◌, ◌+◌, length};
ghost use Rattle.wt_shards.specs.Passes.{AreSeenIn, SeenMore};

mod calls;

use crate::cache::LoadingCache;
use crate::callers::Callers;
use crate::idle::Loan;
use crate::loader::Loader;
use std::marker::Model;
use std::sync::Wait;
use wt_core::{Notice, Notices};
use wt_keys::CacheKey;
use wt_shards::{Books, Pass, Sight, Value};

/// One thread's way to a cache, lent by `Callers::lend`: the permission to wait, a pass, and a list
/// of the entries that left the cache in its latest call.
///
/// Its calls are those of `LoadingCache`, with these three filled in. It can't be dropped, so that
/// its pass isn't lost: `give_back` ends it.
pub struct Caller<'c, K: CacheKey, V: Value<K>, L: Loader<K, V> + Drop, B: Books, R: Wait> {
    pub(crate) rt: &'c R,
    pub(crate) callers: &'c Callers<K, V, L, B>,
    pub(crate) pass: Pass<K, V, B>,
    pub(crate) left: Notices<K, V>,
    pub(crate) loan: Loan,
}

impl<'c, K: CacheKey, V: Value<K>, L: Loader<K, V> + Drop, B: Books, R: Wait> Model
    for Caller<'c, K, V, L, B, R> {
    ghost use Rattle.std.specs.Prelude.{◌+◌, ◌*◌, ◌≤◌, length};
    ghost use Rattle.wt_cache.specs.Calling.{Calling};

    ghost Value = { Calling K V };

    ghost view = { λ c. record { cache = c.callers.now; pass = c.pass; left = c.left } };

    ghost invariant = { λ c. 2 * c.callers.now.layout.config.entries
        ≤ c.left.room + length c.left.list };
}

impl<'c, K: CacheKey, V: Value<K>, L: Loader<K, V> + Drop, B: Books, R: Wait> Caller<
    'c,
    K,
    V,
    L,
    B,
    R,
> {
    // A caller with this pass and this list, which owes the pass.
    pub(crate) fn new(
        rt: &'c R,
        callers: &'c Callers<K, V, L, B>,
        pass: Pass<K, V, B>,
        left: Notices<K, V>,
        loan: Loan,
    ) -> Caller<'c, K, V, L, B, R>
        requires room { 2 * callers.now.layout.config.entries ≤ left.room + length left.list }
        ensures { result ≡ record { cache = callers.now; pass = pass; left = left } }
    {
        Caller {
            rt,
            callers,
            pass,
            left,
            loan,
        }
    }

    /// Returns what this caller has seen, for a caller that is to `learn` it: `Pass::sight`, whose
    /// documentation has the rest. Takes no memory and no lock. O(1).
    pub fn sight(&self) -> Sight<K, V, B>
        ensures { result ≡ self.now.pass.fronts }
    {
        self.pass.sight()
    }

    /// Takes over all that the sight shows. So this caller's next call of a key stands in the
    /// history of the key's shard behind all calls that the sight shows there.
    ///
    /// Takes no memory and no lock. O(shards).
    ///
    /// In use: `uses::callers::learn`.
    pub fn learn(&mut self, sight: &Sight<K, V, B>)
        ensures same { (self.new.cache ≡ self.old.cache)
            × (self.new.pass.counts ≡ self.old.pass.counts) × (self.new.left ≡ self.old.left) }
        ensures this { SeenMore self.old.pass self.new.pass }
        ensures that { AreSeenIn sight.now self.new.pass.fronts }
    {
        self.pass.learn(sight);
    }

    /// Gives the pass and the list back, for the next caller that is lent, and returns what this
    /// caller has seen, for one that is to `learn` it. The entries in the list are dropped.
    ///
    /// Takes no memory, and the lock of the lender, under which nothing is dropped. Not promised:
    /// that it returns.
    ///
    /// In use: `uses::callers::lend` and `uses::callers::learn`.
    pub fn give_back(self) -> Sight<K, V, B>
        ensures { result ≡ self.entry.pass.fronts }
    {
        let Caller {
            rt,
            callers,
            pass,
            left,
            loan,
        } = self;
        let sight = pass.sight();
        callers.take_back(rt, loan, pass, left);
        sight
    }

    /// Returns the entries that left the cache in the latest call that empties this list, the
    /// earliest first. Takes no memory and no lock. O(1).
    ///
    /// In use: `uses::callers::put`.
    pub fn left(&self) -> &[Notice<K, V>]
        ensures { result.now ≡ self.now.left.list }
    {
        self.left.list()
    }

    /// Returns the cache, for the calls that need no caller. Takes no lock. O(1).
    pub fn cache(&self) -> &LoadingCache<K, V, L, B>
        ensures { result.now ≡ self.now.cache }
    {
        let callers = self.callers;
        callers.cache()
    }
}
