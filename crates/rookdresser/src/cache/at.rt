// The calls at a given moment.
ghost use Rattle.std.specs.Prelude.{◌≡◌, IsTrue, IfOk};
ghost use Rattle.wt_core.specs.declared.calls.Call.TheVariants as call;
ghost use Rattle.wt_core.specs.declared.calls.Reply.TheVariants as reply;
ghost use Rattle.wt_shards.specs.Members.{members_of};
ghost use Rattle.wt_shards.specs.Peeks.{FoundAnswers};
ghost use Rattle.wt_cache.specs.Loads.{MayReturn};
ghost use Rattle.wt_cache.specs.Peeks.{IsLentPeek};
ghost use Rattle.rookdresser.specs.Doors.{IsAsked, IsPut, IsSwept};
ghost use Rattle.rookdresser.specs.Gets.{IsGet, IsLook};

use crate::cache::Cache;
use crate::world::World;
use wt_core::Notices;
use wt_keys::{CacheKey, Fault};
use wt_shards::Value;

impl<'d, 'c, 'f, K: CacheKey, V: Value<K>, W: World<K, V>> Cache<'d, 'c, 'f, K, V, W> {
    /// Returns the key's value at this moment: `get`, whose documentation has the rest.
    pub fn get_at(&mut self, key: K, now: u64) -> Result<V, Fault>
        ensures answers { IfOk result (λ value. IsTrue (V.answers value key)) }
        ensures made { IsGet (members_of K.CacheKey V.Value) key now
            (MayReturn W.Loader.may_return) self.old.caller.now self.new.caller.now result }
    {
        self.follow(key, now);
        self.bring(key, now)
    }

    /// Returns the key's value at this moment, if it is there: `look`, whose documentation has the
    /// rest.
    pub fn look_at(&mut self, key: K, now: u64) -> Result<Option<V>, Fault>
        ensures answers { IfOk result (FoundAnswers V.answers key) }
        ensures made { IsLook (members_of K.CacheKey V.Value) key now self.old.caller.now
            self.new.caller.now result }
    {
        self.follow(key, now);
        self.see(key, now)
    }

    /// Returns the value that a look at this moment would find: `peek`, whose documentation has the
    /// rest.
    pub fn peek_at(&mut self, key: K, now: u64) -> Result<Option<V>, Fault>
        ensures answers { IfOk result (FoundAnswers V.answers key) }
        ensures made { IsLentPeek (members_of K.CacheKey V.Value) key now self.old.caller.now
            self.new.caller.now result }
    {
        self.caller.peek(key, now)
    }

    /// Stores the value under the key at this moment: `put`, whose documentation has the rest.
    pub fn put_at(&mut self, key: K, value: V, now: u64) -> Result<(), Fault>
        requires answers { IsTrue (V.answers value key) }
        ensures made { IsPut (members_of K.CacheKey V.Value) key now value self.old.caller.now
            self.new.caller.now result }
    {
        let done = self.caller.put(key, value, now);
        self.count(&done);
        Ok(done?.reply)
    }

    /// Takes the key's value out at this moment: `remove`, whose documentation has the rest.
    pub fn remove_at(&mut self, key: K, now: u64) -> Result<bool, Fault>
        ensures made { IsAsked (members_of K.CacheKey V.Value) key (call.DropKey key now)
            reply.Dropped self.old.caller.now self.new.caller.now result }
    {
        let done = self.caller.invalidate(key, now);
        self.count(&done);
        Ok(done?.reply)
    }

    /// Keeps the value of the key's current load out of the cache, at this moment: `forget`, whose
    /// documentation has the rest.
    pub fn forget_at(&mut self, key: K, now: u64) -> Result<bool, Fault>
        ensures made { IsAsked (members_of K.CacheKey V.Value) key (call.Forget key now)
            reply.Forgot self.old.caller.now self.new.caller.now result }
    {
        let done = self.caller.forget(key, now);
        self.count(&done);
        Ok(done?.reply)
    }

    /// Takes every entry out at this moment: `clear`, whose documentation has the rest.
    pub fn clear_at(&mut self, now: u64) -> Result<Notices<K, V>, Fault>
        ensures made { IsSwept (members_of K.CacheKey V.Value) (call.Clear now)
            self.old.caller.now self.new.caller.now result }
    {
        let cache = self.caller.cache();
        let room = cache.shards() * cache.entries() as usize;
        let mut left = Notices::new(self.alloc, room)?;
        let done = self.caller.invalidate_all(now, &mut left);
        self.tally.count(&done, left.list());
        done?;
        Ok(left)
    }

    /// Takes every entry out that has expired at this moment: `clean`, whose documentation has the
    /// rest.
    pub fn clean_at(&mut self, now: u64) -> Result<Notices<K, V>, Fault>
        ensures made { IsSwept (members_of K.CacheKey V.Value) (call.Clean now)
            self.old.caller.now self.new.caller.now result }
    {
        let cache = self.caller.cache();
        let room = cache.shards() * cache.entries() as usize;
        let mut left = Notices::new(self.alloc, room)?;
        let done = self.caller.clean_up(now, &mut left);
        self.tally.count(&done, left.list());
        done?;
        Ok(left)
    }
}
