// The calls of a caller: those of its cache, with its pass and its list.
ghost use Rattle.std.specs.Prelude.{◌≡◌, ◌≤◌, IsTrue, IfOk};
ghost use Rattle.wt_regions.specs.Notices.{emptied};
ghost use Rattle.wt_core.specs.declared.calls.Call.TheVariants as call;
ghost use Rattle.wt_core.specs.declared.calls.Reply.TheVariants as reply;
ghost use Rattle.wt_shards.specs.Asked.{ReplyAnswers};
ghost use Rattle.wt_shards.specs.Members.{members_of};
ghost use Rattle.wt_cache.specs.Cached.{most_entries};
ghost use Rattle.wt_cache.specs.Follows.{IsFollowed};
ghost use Rattle.wt_cache.specs.Loads.{MayReturn};
ghost use Rattle.wt_shards.specs.Landings.{book_at};
ghost use Rattle.wt_shards.specs.Place.{home_at, home_of};
ghost use Rattle.wt_cache.specs.Contract.{IsLentCall, IsLentGet, IsLentPut, IsLentSweep};
ghost use Rattle.wt_cache.specs.Peeks.{AreLentNumbers, IsLentPeek, IsLentRead};
ghost use Rattle.wt_cache.specs.SharedGots.{IsOfShard, IsSoughtSharing, got_in};
ghost use Rattle.wt_shards.specs.Peeks.{FoundAnswers};

use crate::caller::Caller;
use crate::followers::Followers;
use crate::got::Got;
use crate::loader::Loader;
use crate::shared_got::SharedGot;
use crate::unseen::Unseen;
use std::sync::Wait;
use wt_core::{Notices, Reply, Stats};
use wt_keys::{CacheKey, Fault};
use wt_shards::{Books, Done, Value};

impl<'c, K: CacheKey, V: Value<K>, L: Loader<K, V> + Drop, B: Books, R: Wait> Caller<
    'c,
    K,
    V,
    L,
    B,
    R,
> {
    /// Returns the value of the key, loaded for all that ask meanwhile if it isn't there:
    /// `LoadingCache::get`, whose documentation has the rest.
    ///
    /// `now` is in milliseconds. First the list of entries that left is emptied.
    ///
    /// In use: `uses::callers::get`.
    pub fn get(&mut self, key: K, now: u64) -> Result<Got<V>, Fault>
        ensures made { IsLentGet (members_of K.CacheKey V.Value) (MayReturn L.may_return) key now
            self.old self.new result }
    {
        self.left.empty();
        let cache = self.callers.cache();
        cache.get(self.rt, &mut self.pass, key, now, &mut self.left)
    }

    /// Gets the key's value as `get` does, and also returns this caller's share of the load, if the
    /// value was loaded: `LoadingCache::get_sharing`, whose documentation has the rest.
    ///
    /// `now` is in milliseconds. First the list of entries that left is emptied.
    ///
    /// In use: `uses::callers::get_both`.
    pub fn get_sharing(&mut self, key: K, now: u64) -> Result<SharedGot<K, V>, Fault>
        ensures made { IsLentGet (members_of K.CacheKey V.Value) (MayReturn L.may_return) key now
            self.old self.new (got_in result) }
        ensures sought { IfOk result (IsSoughtSharing (members_of K.CacheKey V.Value)
            (MayReturn L.may_return) key now self.old.cache
            (book_at (home_of K.word key self.old.cache.layout) B.S0.Naming.book B.S1.Naming.book
            B.S2.Naming.book B.S3.Naming.book)
            self.old.pass self.new.pass (emptied self.old.left) self.new.left) }
        ensures of_shard { IfOk result (λ shared. IsOfShard
            (book_at (home_of K.word key self.old.cache.layout) B.S0.Naming.book B.S1.Naming.book
            B.S2.Naming.book B.S3.Naming.book) shared.share) }
    {
        self.left.empty();
        let cache = self.callers.cache();
        match cache.get_sharing(self.rt, &mut self.pass, key, now, &mut self.left) {
            Ok(shared) => Ok(shared),
            Err(fault) => Err(fault),
        }
    }

    /// Returns the key's value if it is there, and loads nothing: `LoadingCache::get_if_present`,
    /// whose documentation has the rest.
    ///
    /// `now` is in milliseconds. First the list of entries that left is emptied.
    ///
    /// In use: `uses::callers::get_if_present`.
    pub fn get_if_present(&mut self, key: K, now: u64) -> Result<Done<Reply<V>>, Fault>
        ensures made { IsLentCall (members_of K.CacheKey V.Value) key (call.Look key now)
            (λ reply. reply) self.old self.new result }
        ensures answers { IfOk result (λ done. ReplyAnswers V.answers key done.reply) }
    {
        self.left.empty();
        let cache = self.callers.cache();
        cache.get_if_present(self.rt, &mut self.pass, key, now, &mut self.left)
    }

    /// Returns the key's value if it is there, and uses nothing: `LoadingCache::peek`, whose
    /// documentation has the rest.
    ///
    /// `now` is in milliseconds. The list of entries that left stays as it is.
    ///
    /// In use: `uses::callers::peek`.
    pub fn peek(&mut self, key: K, now: u64) -> Result<Option<V>, Fault>
        ensures made { IsLentPeek (members_of K.CacheKey V.Value) key now self.old self.new result }
        ensures answers { IfOk result (FoundAnswers V.answers key) }
    {
        let cache = self.callers.cache();
        cache.peek(self.rt, &mut self.pass, key, now)
    }

    /// Returns the key's value if it is there, and lets the policy hear of a part of the hits:
    /// `LoadingCache::read`, whose documentation has the rest. Where it finds nothing, call `get`.
    ///
    /// `now` is in milliseconds. First the list of entries that left is emptied.
    ///
    /// In use: `uses::callers::read`.
    pub fn read(&mut self, key: K, now: u64) -> Result<Option<V>, Fault>
        ensures made { IsLentRead (members_of K.CacheKey V.Value) key now self.old self.new result }
        ensures answers { IfOk result (FoundAnswers V.answers key) }
    {
        self.left.empty();
        let cache = self.callers.cache();
        cache.read(self.rt, &mut self.pass, key, now, &mut self.left)
    }

    /// Returns the numbers of all shards, added up, each after all calls that this caller then has
    /// seen there: `LoadingCache::seen_stats`, whose documentation has the rest.
    ///
    /// The list of entries that left stays as it is.
    ///
    /// In use: `uses::callers::seen_stats`.
    pub fn seen_stats(&mut self) -> Stats
        ensures made { AreLentNumbers (members_of K.CacheKey V.Value) self.old self.new result }
    {
        let cache = self.callers.cache();
        cache.seen_stats(self.rt, &mut self.pass)
    }

    /// Stores the value under the key: `LoadingCache::put`, whose documentation has the rest.
    ///
    /// `now` is in milliseconds. First the list of entries that left is emptied.
    ///
    /// In use: `uses::callers::put`.
    pub fn put(&mut self, key: K, value: V, now: u64) -> Result<Done<()>, Fault>
        requires answers { IsTrue (V.answers value key) }
        ensures made { IsLentPut (members_of K.CacheKey V.Value) key value now self.old self.new
            result }
    {
        self.left.empty();
        let cache = self.callers.cache();
        cache.put(self.rt, &mut self.pass, key, value, now, &mut self.left)
    }

    /// Takes the key's value out, and returns whether there was one: `LoadingCache::invalidate`,
    /// whose documentation has the rest.
    ///
    /// `now` is in milliseconds. First the list of entries that left is emptied.
    ///
    /// In use: `uses::callers::invalidate`.
    pub fn invalidate(&mut self, key: K, now: u64) -> Result<Done<bool>, Fault>
        ensures made { IsLentCall (members_of K.CacheKey V.Value) key (call.DropKey key now)
            reply.Dropped self.old self.new result }
    {
        self.left.empty();
        let cache = self.callers.cache();
        cache.invalidate(self.rt, &mut self.pass, key, now, &mut self.left)
    }

    /// Lets no further caller join the key's current load, keeps its value out, and returns whether
    /// there was one: `LoadingCache::forget`, whose documentation has the rest.
    ///
    /// `now` is in milliseconds. First the list of entries that left is emptied.
    ///
    /// In use: `uses::callers::forget`.
    pub fn forget(&mut self, key: K, now: u64) -> Result<Done<bool>, Fault>
        ensures made { IsLentCall (members_of K.CacheKey V.Value) key (call.Forget key now)
            reply.Forgot self.old self.new result }
    {
        self.left.empty();
        let cache = self.callers.cache();
        cache.forget(self.rt, &mut self.pass, key, now, &mut self.left)
    }

    /// Takes every entry out, shard after shard: `LoadingCache::invalidate_all`, whose
    /// documentation has the rest.
    ///
    /// `now` is in milliseconds. Entries that leave go into `notices`, since there may be more than
    /// the caller's own list has room for.
    ///
    /// In use: `uses::callers::invalidate_all`.
    pub fn invalidate_all(&mut self, now: u64, notices: &mut Notices<K, V>) -> Result<(), Fault>
        requires room { most_entries self.old.cache ≤ notices.old.room }
        ensures made { IsLentSweep (members_of K.CacheKey V.Value) (call.Clear now) self.old
            self.new notices.old notices.new result }
    {
        let cache = self.callers.cache();
        cache.invalidate_all(self.rt, &mut self.pass, now, notices)
    }

    /// Takes every expired entry out, shard after shard: `LoadingCache::clean_up`, whose
    /// documentation has the rest.
    ///
    /// `now` is in milliseconds. Entries that leave go into `notices`, as in `invalidate_all`.
    ///
    /// In use: `uses::callers::clean_up`.
    pub fn clean_up(&mut self, now: u64, notices: &mut Notices<K, V>) -> Result<(), Fault>
        requires room { most_entries self.old.cache ≤ notices.old.room }
        ensures made { IsLentSweep (members_of K.CacheKey V.Value) (call.Clean now) self.old
            self.new notices.old notices.new result }
    {
        let cache = self.callers.cache();
        cache.clean_up(self.rt, &mut self.pass, now, notices)
    }

    /// Moves the border between window and main of the key's shard by one entry, and returns whether
    /// it moved: `LoadingCache::slide`, whose documentation has the rest.
    ///
    /// `now` is in milliseconds. First the list of entries that left is emptied.
    ///
    /// In use: `uses::callers::slide`.
    pub fn slide(&mut self, key: K, wider: bool, now: u64) -> Result<Done<bool>, Fault>
        ensures made { IsLentCall (members_of K.CacheKey V.Value) key (call.Slide wider now)
            reply.Slid self.old self.new result }
    {
        self.left.empty();
        let cache = self.callers.cache();
        cache.slide(self.rt, &mut self.pass, key, wider, now, &mut self.left)
    }

    /// Lets the window of the key's shard follow a look-up of the key: call it behind each `get` and
    /// `get_if_present`. `Followers::follow` has the rest.
    ///
    /// `now` is in milliseconds. First the list of entries that left is emptied.
    ///
    /// In use: `uses::callers::follow`.
    pub fn follow(&mut self, followers: &Followers<K>, key: K, now: u64) -> Result<u32, Fault>
        ensures made { IsFollowed (members_of K.CacheKey V.Value)
            (home_at K.word key self.old.cache.layout) now self.old.pass self.new.pass
            (emptied self.old.left) self.new.left result }
        ensures same { self.new.cache ≡ self.old.cache }
    {
        self.left.empty();
        let cache = self.callers.cache();
        followers.follow(self.rt, cache, &mut self.pass, key, now, &mut self.left)
    }

    /// Lets the window of the key's shard follow a look-up of the key, and shows the keys to the shard's
    /// adviser sixteen at a time: `Followers::follow_by` has the rest.
    ///
    /// `now` is in milliseconds. First the list of entries that left is emptied. `unseen` is this
    /// caller's alone, and made for as many shards as the cache has.
    ///
    /// In use: `uses::callers::follow_by`.
    pub fn follow_by(
        &mut self,
        followers: &Followers<K>,
        unseen: &mut Unseen<K>,
        key: K,
        now: u64,
    ) -> Result<u32, Fault>
        ensures made { IsFollowed (members_of K.CacheKey V.Value)
            (home_at K.word key self.old.cache.layout) now self.old.pass self.new.pass
            (emptied self.old.left) self.new.left result }
        ensures same { self.new.cache ≡ self.old.cache }
    {
        self.left.empty();
        let cache = self.callers.cache();
        let pass = &mut self.pass;
        followers.follow_by(self.rt, cache, pass, unseen, key, now, &mut self.left)
    }
}
