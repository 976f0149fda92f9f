// The calls at the moment that the clock shows.
ghost use Rattle.std.specs.Prelude.{◌≡◌, IsTrue, IfOk};
ghost use Rattle.wt_core.specs.declared.calls.Call.TheVariants as call;
ghost use Rattle.wt_core.specs.declared.calls.Reply.TheVariants as reply;
ghost use Rattle.wt_shards.specs.Members.{members_of};
ghost use Rattle.wt_shards.specs.Peeks.{FoundAnswers};
ghost use Rattle.wt_cache.specs.Loads.{MayReturn};
ghost use Rattle.wt_cache.specs.Peeks.{IsLentPeek};
ghost use Rattle.rookdresser.specs.Doors.{IsAsked, IsPut, IsShown, IsSwept};
ghost use Rattle.rookdresser.specs.Gets.{IsGet, IsLook};
ghost use Rattle.rookdresser.specs.Doors.{MayShow};

use crate::cache::Cache;
use crate::world::World;
use wt_core::Notices;
use wt_keys::{CacheKey, Fault};
use wt_shards::Value;

impl<'d, 'c, 'f, K: CacheKey, V: Value<K>, W: World<K, V>> Cache<'d, 'c, 'f, K, V, W> {
    /// Returns the key's value. If it isn't there, this call loads it, or waits for the thread that
    /// loads it already.
    ///
    /// If the windows follow the stream, the key's shard may move its window first. Unless
    /// `refresh` is set, the value is then read beside other threads' reads. A fault leaves the
    /// cache as the calls before it left it: `LoadingCache::get` has the faults of a load in their
    /// order. A hit takes memory only for the share of the value. Takes one lock at a time.
    /// Amortised O(1), unless an attacker chooses the keys. Not promised: that it returns.
    pub fn get(&mut self, key: K) -> Result<V, Fault>
        ensures answers { IfOk result (λ value. IsTrue (V.answers value key)) }
        ensures made { IsShown (MayShow W.Clock.shows) (λ now. IsGet
            (members_of K.CacheKey V.Value) key now (MayReturn W.Loader.may_return)
            self.old.caller.now self.new.caller.now result) }
    {
        let now = self.moment();
        self.get_at(key, now)
    }

    /// Returns the key's value if it is there, as a use of it. Loads nothing, and waits for no load.
    ///
    /// `NoMemory` and `StepsSpent` leave the cache as it is, but for its window. Takes one lock at a
    /// time. Amortised O(1).
    pub fn look(&mut self, key: K) -> Result<Option<V>, Fault>
        ensures answers { IfOk result (FoundAnswers V.answers key) }
        ensures made { IsShown (MayShow W.Clock.shows) (λ now. IsLook
            (members_of K.CacheKey V.Value) key now self.old.caller.now self.new.caller.now
            result) }
    {
        let now = self.moment();
        self.look_at(key, now)
    }

    /// Returns the value that a look would find, and uses nothing: no entry, no count, no step.
    ///
    /// `NoMemory` if the share of the value is refused. Takes the lock of the key's shard, beside
    /// other readers. Expected O(1).
    pub fn peek(&mut self, key: K) -> Result<Option<V>, Fault>
        ensures answers { IfOk result (FoundAnswers V.answers key) }
        ensures made { IsShown (MayShow W.Clock.shows) (λ now. IsLentPeek
            (members_of K.CacheKey V.Value) key now self.old.caller.now self.new.caller.now
            result) }
    {
        let now = self.moment();
        self.peek_at(key, now)
    }

    /// Stores the value under the key, in place of one that is there. A load of the key that is open
    /// stores nothing any more.
    ///
    /// `TooHeavy` comes before `StepsSpent`, and both before `NoMemory`; each leaves the cache as it
    /// is. Takes the lock of the key's shard. Amortised O(1), and O(entries) if many light entries
    /// leave for a heavy one.
    pub fn put(&mut self, key: K, value: V) -> Result<(), Fault>
        requires answers { IsTrue (V.answers value key) }
        ensures made { IsShown (MayShow W.Clock.shows) (λ now. IsPut
            (members_of K.CacheKey V.Value) key now value self.old.caller.now
            self.new.caller.now result) }
    {
        let now = self.moment();
        self.put_at(key, value, now)
    }

    /// Takes the key's value out, and returns whether there was one. A load of the key that is open
    /// stores nothing any more.
    ///
    /// `StepsSpent` comes before `NoMemory`; each leaves the cache as it is. Takes the lock of the
    /// key's shard. Expected O(1).
    pub fn remove(&mut self, key: K) -> Result<bool, Fault>
        ensures made { IsShown (MayShow W.Clock.shows) (λ now. IsAsked
            (members_of K.CacheKey V.Value) key (call.DropKey key now) reply.Dropped
            self.old.caller.now self.new.caller.now result) }
    {
        let now = self.moment();
        self.remove_at(key, now)
    }

    /// Lets no further thread join the key's current load, keeps its value out, and returns whether
    /// there was one. The value in the cache stays.
    ///
    /// `StepsSpent` comes before `NoMemory`; each leaves the cache as it is. Takes the lock of the
    /// key's shard. Expected O(1).
    pub fn forget(&mut self, key: K) -> Result<bool, Fault>
        ensures made { IsShown (MayShow W.Clock.shows) (λ now. IsAsked
            (members_of K.CacheKey V.Value) key (call.Forget key now) reply.Forgot
            self.old.caller.now self.new.caller.now result) }
    {
        let now = self.moment();
        self.forget_at(key, now)
    }

    /// Takes every entry out, shard after shard, and returns what left. No load that is open stores
    /// its value.
    ///
    /// Takes memory for a list of all entries first. A fault of a later shard leaves the earlier
    /// ones empty, and what left them is dropped. Takes each shard's lock in turn. O(entries).
    pub fn clear(&mut self) -> Result<Notices<K, V>, Fault>
        ensures made { IsShown (MayShow W.Clock.shows) (λ now. IsSwept
            (members_of K.CacheKey V.Value) (call.Clear now) self.old.caller.now
            self.new.caller.now result) }
    {
        let now = self.moment();
        self.clear_at(now)
    }

    /// Takes every entry out that has expired, shard after shard, and returns what left.
    ///
    /// Takes memory for a list of all entries first. A fault of a later shard leaves the earlier
    /// ones clean, and what left them is dropped. Takes each shard's lock in turn. O(entries).
    pub fn clean(&mut self) -> Result<Notices<K, V>, Fault>
        ensures made { IsShown (MayShow W.Clock.shows) (λ now. IsSwept
            (members_of K.CacheKey V.Value) (call.Clean now) self.old.caller.now
            self.new.caller.now result) }
    {
        let now = self.moment();
        self.clean_at(now)
    }
}
