// The calls of the cache but `get`. A call with a key is one step at the key's shard; a sweep is a step
// at each shard in turn.
ghost use Rattle.std.specs.Prelude.{◌≡◌, ◌≤◌, IsTrue, IfOk};
ghost use Rattle.wt_core.specs.declared.calls.Call.TheVariants as call;
ghost use Rattle.wt_core.specs.declared.calls.Reply.TheVariants as reply;
ghost use Rattle.wt_shards.specs.Asked.{ReplyAnswers};
ghost use Rattle.wt_shards.specs.Contract.{IsHomeCall, IsSweepCall};
ghost use Rattle.wt_shards.specs.Peeks.{FoundAnswers, IsHomePeek};
ghost use Rattle.wt_shards.specs.Members.{members_of};
ghost use Rattle.wt_shards.specs.Tells.{IsHomeRead};
ghost use Rattle.wt_shards.specs.Place.{home_at};
ghost use Rattle.wt_cache.specs.Cached.{most_entries};
ghost use Rattle.wt_cache.specs.Contract.{IsPutCall};

use crate::cache::LoadingCache;
use crate::loader::Loader;
use std::sync::Wait;
use wt_core::{Notices, Reply};
use wt_keys::{CacheKey, Fault};
use wt_shards::{Books, Done, Pass, Value};

impl<K: CacheKey, V: Value<K>, L: Loader<K, V> + Drop, B: Books> LoadingCache<K, V, L, B> {
    /// Returns a share of the key's value, `Hit`, or `Absent` if there is none. Loads nothing,
    /// and waits for no load.
    ///
    /// `now` is in milliseconds. `StepsSpent` comes before `NoMemory`, which a hit can meet, and a
    /// miss if the shard's lagging copy finds none. Takes the lock of the key's shard for one step.
    /// Expected amortised O(1), unless an attacker chooses the keys (see `Seeded`).
    pub fn get_if_present<R: Wait>(
        &self,
        rt: &R,
        pass: &mut Pass<K, V, B>,
        key: K,
        now: u64,
        notices: &mut Notices<K, V>,
    ) -> Result<Done<Reply<V>>, Fault>
        requires room { self.now.layout.config.entries ≤ notices.old.room }
        ensures made { IsHomeCall (members_of K.CacheKey V.Value)
            (home_at K.word key self.now.layout) (call.Look key now) (λ reply. reply) pass.old
            pass.new notices.old notices.new result }
        ensures answers { IfOk result (λ done. ReplyAnswers V.answers key done.reply) }
    {
        self.shards.look(rt, pass, key, now, notices)
    }

    /// Returns a share of the value that `get_if_present` would return at `now`, if it would hit.
    ///
    /// Is no step: it uses no entry, and neither the cache nor the pass counts it. So a key that is
    /// only peeked leaves as if nobody used it. `now` is in milliseconds. Takes memory for that
    /// share alone, and the lock of the key's shard. Expected O(1), unless an attacker chooses the
    /// keys (see `Seeded`).
    pub fn peek<R: Wait>(
        &self,
        rt: &R,
        pass: &mut Pass<K, V, B>,
        key: K,
        now: u64,
    ) -> Result<Option<V>, Fault>
        ensures made { IsHomePeek (members_of K.CacheKey V.Value)
            (home_at K.word key self.now.layout) key now pass.old pass.new result }
        ensures answers { IfOk result (FoundAnswers V.answers key) }
    {
        self.shards.peek(rt, pass, key, now)
    }

    /// Returns a share of the value that `get_if_present` would return at `now`, if it would hit, and
    /// lets the policy hear of a part of the hits. Where it finds nothing, call `get`.
    ///
    /// Is a `peek`, which takes a fraction of a look's instructions, and then a `get_if_present` of
    /// the same key for each of the first 8 hits after a read of this pass that found nothing, for
    /// one in 16 of the next 1,024 hits, and for one in 256 of the others. With `after_access` each
    /// hit is followed by one, which renews its entry. If it is refused, nothing changes, and the
    /// read returns its value all the same. Only these look-ups are counted: by the cache, and by the
    /// pass. `Tally` counts reads.
    ///
    /// `now` is in milliseconds. `NoMemory` comes only if the share of the value is refused. Takes
    /// the lock of the key's shard, once or twice. Expected amortised O(1), unless an attacker
    /// chooses the keys (see `Seeded`).
    pub fn read<R: Wait>(
        &self,
        rt: &R,
        pass: &mut Pass<K, V, B>,
        key: K,
        now: u64,
        notices: &mut Notices<K, V>,
    ) -> Result<Option<V>, Fault>
        requires room { self.now.layout.config.entries ≤ notices.old.room }
        ensures made { IsHomeRead (members_of K.CacheKey V.Value)
            (home_at K.word key self.now.layout) key now pass.old pass.new notices.old notices.new
            result }
        ensures answers { IfOk result (FoundAnswers V.answers key) }
    {
        self.shards.read(rt, pass, key, now, notices)
    }

    /// Stores the value under the key, in place of one that is there. A load of the key that is
    /// open is no longer joined, and its value not stored.
    ///
    /// `now` is in milliseconds. `TooHeavy` comes before `StepsSpent`, and both before memory is
    /// asked for; a refused value is dropped. Takes the lock of the key's shard for one step.
    /// Expected amortised O(1), unless an attacker chooses the keys (see `Seeded`); O(entries) if
    /// many leave.
    pub fn put<R: Wait>(
        &self,
        rt: &R,
        pass: &mut Pass<K, V, B>,
        key: K,
        value: V,
        now: u64,
        notices: &mut Notices<K, V>,
    ) -> Result<Done<()>, Fault>
        requires answers { IsTrue (V.answers value key) }
        requires room { self.now.layout.config.entries ≤ notices.old.room }
        ensures made { IsPutCall (members_of K.CacheKey V.Value) self.now.layout key value now
            pass.old pass.new notices.old notices.new result }
    {
        self.shards.put(rt, pass, key, value, now, notices)
    }

    /// Takes the key's value out, and returns whether there was one. A load of the key that is open
    /// is no longer joined, and its value not stored.
    ///
    /// `now` is in milliseconds. Takes no memory of its own, and the lock of the key's shard for
    /// one step. Expected amortised O(1), unless an attacker chooses the keys (see `Seeded`).
    pub fn invalidate<R: Wait>(
        &self,
        rt: &R,
        pass: &mut Pass<K, V, B>,
        key: K,
        now: u64,
        notices: &mut Notices<K, V>,
    ) -> Result<Done<bool>, Fault>
        requires room { self.now.layout.config.entries ≤ notices.old.room }
        ensures made { IsHomeCall (members_of K.CacheKey V.Value)
            (home_at K.word key self.now.layout) (call.DropKey key now) reply.Dropped pass.old
            pass.new notices.old notices.new result }
    {
        self.shards.drop_key(rt, pass, key, now, notices)
    }

    /// Lets no further caller join the key's current load, keeps its value out, and returns whether
    /// there was one. That load stays open until it lands. The key's entry stays, unless it has
    /// expired: then it leaves.
    ///
    /// `now` is in milliseconds. Takes no memory of its own, and the lock of the key's shard for
    /// one step. Expected amortised O(1), unless an attacker chooses the keys (see `Seeded`).
    pub fn forget<R: Wait>(
        &self,
        rt: &R,
        pass: &mut Pass<K, V, B>,
        key: K,
        now: u64,
        notices: &mut Notices<K, V>,
    ) -> Result<Done<bool>, Fault>
        requires room { self.now.layout.config.entries ≤ notices.old.room }
        ensures made { IsHomeCall (members_of K.CacheKey V.Value)
            (home_at K.word key self.now.layout) (call.Forget key now) reply.Forgot pass.old
            pass.new notices.old notices.new result }
    {
        self.shards.forget(rt, pass, key, now, notices)
    }

    /// Takes every entry out, shard after shard. Open loads are no longer joined, nor stored.
    ///
    /// `now` is in milliseconds. If a shard refuses, those before it are done. Takes no memory of
    /// its own, and each shard's lock in turn for one step; another thread may change a shard in
    /// between. O(entries).
    pub fn invalidate_all<R: Wait>(
        &self,
        rt: &R,
        pass: &mut Pass<K, V, B>,
        now: u64,
        notices: &mut Notices<K, V>,
    ) -> Result<(), Fault>
        requires room { most_entries self.now ≤ notices.old.room }
        ensures made { IsSweepCall (members_of K.CacheKey V.Value) self.now.layout (call.Clear now)
            pass.old pass.new notices.old notices.new result }
    {
        self.shards.clear(rt, pass, now, notices)
    }

    /// Takes every expired entry out, shard after shard. Without it an expired entry leaves when
    /// its key is next asked for, or to make room.
    ///
    /// `now` is in milliseconds. If a shard refuses, those before it are done. Takes no memory of
    /// its own, and each shard's lock in turn for one step; another thread may change a shard in
    /// between. O(entries).
    pub fn clean_up<R: Wait>(
        &self,
        rt: &R,
        pass: &mut Pass<K, V, B>,
        now: u64,
        notices: &mut Notices<K, V>,
    ) -> Result<(), Fault>
        requires room { most_entries self.now ≤ notices.old.room }
        ensures made { IsSweepCall (members_of K.CacheKey V.Value) self.now.layout (call.Clean now)
            pass.old pass.new notices.old notices.new result }
    {
        self.shards.clean(rt, pass, now, notices)
    }

    /// Moves the border between window and main of the key's shard by one entry, and returns whether
    /// it moved. No entry leaves. `Followers::follow` chooses the way.
    ///
    /// `now` is in milliseconds. `StepsSpent` comes before `NoMemory`. Takes memory as
    /// [`Core::slide`](wt_core::Core::slide) does, in the shard and in its lagging copy, and the
    /// lock of the key's shard for one step. Expected O(1), as there.
    pub fn slide<R: Wait>(
        &self,
        rt: &R,
        pass: &mut Pass<K, V, B>,
        key: K,
        wider: bool,
        now: u64,
        notices: &mut Notices<K, V>,
    ) -> Result<Done<bool>, Fault>
        requires room { self.now.layout.config.entries ≤ notices.old.room }
        ensures made { IsHomeCall (members_of K.CacheKey V.Value)
            (home_at K.word key self.now.layout) (call.Slide wider now) reply.Slid pass.old
            pass.new notices.old notices.new result }
        ensures none { notices.new ≡ notices.old }
    {
        self.shards.slide(rt, pass, key, wider, now, notices)
    }
}
