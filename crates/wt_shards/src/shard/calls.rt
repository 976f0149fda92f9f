// The calls of a shard but `seek`: one step each.
//
// The public ones are for a program that has one shard and no lock; tests and a benchmark of a
// shard by itself make them. `Shards` makes the calls of its shards as data, by `step`.
ghost use Rattle.std.specs.Prelude.{◌≡◌, [], IsOk, IsTrue, is_some, ◌≤◌, IfOk, false};
ghost use Rattle.wt_core.specs.declared.calls.Call.TheVariants as call;
ghost use Rattle.wt_core.specs.declared.calls.Reply.TheVariants as reply;
ghost use Rattle.wt_core.specs.Landings.{IsEmpty, IsEmptyLanding, IsLanding};
ghost use Rattle.wt_flights.specs.Rows.{row_of};
ghost use Rattle.wt_shards.specs.Asked.{AnswersAsked, MayAsk, ReplyAnswers, is_seek};
ghost use Rattle.wt_shards.specs.Audited.{excess};
ghost use Rattle.wt_shards.specs.Contract.{IsShardCall, owned};
ghost use Rattle.wt_shards.specs.Members.{members_by};

use crate::shard::Shard;
use crate::shard_ledger::ShardLedger;
use crate::shares::Shares;
use std::sync::ledger::Ledger;
use wt_core::{Call, Land, Notices, Reply, Weighs};
use wt_keys::{Answers, CacheKey, Fault, Share};

impl<K: CacheKey, V: Share + Weighs + Answers<K>, S: ShardLedger, H: Ledger> Shard<K, V, S, H> {
    // Makes the step of a call that isn't a seek.
    #[inline(always)]
    pub(crate) fn step(
        &mut self,
        shares: &mut Shares<S, H>,
        call: Call<K, V>,
        notices: &mut Notices<K, V>,
    ) -> Result<Reply<V>, Fault>
        requires asked { MayAsk V.answers K.word S.ShardLedger.place call notices.old }
        requires plain { is_seek call ≡ false }
        ensures made { IsShardCall (members_by K.eq K.word V.measure V.answers) V.Share.is_copied
            S.ShardLedger.place.config.entries call (λ reply. reply) (λ _. [])
            (owned self.old shares.old notices.old) (owned self.new shares.new notices.new) result }
        ensures answers { IfOk result (AnswersAsked V.answers call) }
        // A landing of an open load has its place.
        ensures place { IsLanding K.eq self.old.core call
            → excess K.eq K.word V.measure call self.old ≡ 0 }
        ensures empty_succeeds { IsEmptyLanding K.eq self.old.core call → IsOk result }
    {
        self.make(shares, call, None, notices)
    }

    /// Looks the key up at the moment `now`, in milliseconds, and returns `Hit` with a share of its
    /// value, or `Absent`.
    ///
    /// `StepsSpent` comes before `NoMemory`. Only a hit takes memory, and none if a share is a copy
    /// and the entry isn't in probation; the lagging copy may. Expected amortised O(1), unless an
    /// attacker chooses the keys (see `Seeded`), and the cost of the dropped records.
    pub fn look(
        &mut self,
        shares: &mut Shares<S, H>,
        key: K,
        now: u64,
        notices: &mut Notices<K, V>,
    ) -> Result<Reply<V>, Fault>
        requires asked { MayAsk V.answers K.word S.ShardLedger.place
            (call.Look key now) notices.old }
        ensures made { IsShardCall (members_by K.eq K.word V.measure V.answers) V.Share.is_copied
            S.ShardLedger.place.config.entries (call.Look key now) (λ reply. reply) (λ _. [])
            (owned self.old shares.old notices.old) (owned self.new shares.new notices.new) result }
        ensures answers { IfOk result (λ reply. ReplyAnswers V.answers key reply) }
    {
        self.step(shares, Call::Look(key, now), notices)
    }

    /// Closes the load `id`, if it is open and of this key, and returns `Kept`, `Loose` or `Failed`
    /// with the number of its sharers. If there is no such load, returns `Gone`.
    ///
    /// `now` is in milliseconds. An open load has a free place in the ring, so its landing drops no
    /// record. Only a landing that would return `Gone` may fail with `StepsSpent`, or take memory
    /// for the lagging copy; a value that is stored takes memory too. Expected O(log(open loads))
    /// and a move of the landings behind it, O(entries) if many leave.
    pub fn land(
        &mut self,
        shares: &mut Shares<S, H>,
        id: u64,
        key: K,
        what: Land<V>,
        now: u64,
        notices: &mut Notices<K, V>,
    ) -> Result<Reply<V>, Fault>
        requires asked { MayAsk V.answers K.word S.ShardLedger.place
            (call.Land id key what now) notices.old }
        ensures made { IsShardCall (members_by K.eq K.word V.measure V.answers) V.Share.is_copied
            S.ShardLedger.place.config.entries (call.Land id key what now) (λ reply. reply)
            (λ _. []) (owned self.old shares.old notices.old)
            (owned self.new shares.new notices.new) result }
        // An open load drops no record.
        ensures place { IsTrue (is_some (row_of K.eq key id self.old.core.flights))
            → excess K.eq K.word V.measure (call.Land id key what now) self.old ≡ 0 }
        ensures empty_succeeds { IsEmpty what
            → IsTrue (is_some (row_of K.eq key id self.old.core.flights)) → IsOk result }
    {
        self.step(shares, Call::Land(id, key, what, now), notices)
    }

    /// Stores the value under the key, in place of one that is there.
    ///
    /// `now` is in milliseconds. `TooHeavy` comes before `StepsSpent`, and both before memory is
    /// asked for; the refused value is dropped. Expected amortised O(1), unless an attacker chooses
    /// the keys (see `Seeded`); O(entries) if many leave, and the cost of the dropped records.
    pub fn put(
        &mut self,
        shares: &mut Shares<S, H>,
        key: K,
        value: V,
        now: u64,
        notices: &mut Notices<K, V>,
    ) -> Result<(), Fault>
        requires asked { MayAsk V.answers K.word S.ShardLedger.place
            (call.Put key value now) notices.old }
        ensures made { IsShardCall (members_by K.eq K.word V.measure V.answers) V.Share.is_copied
            S.ShardLedger.place.config.entries (call.Put key value now) (λ _. reply.Stored)
            (λ _. []) (owned self.old shares.old notices.old)
            (owned self.new shares.new notices.new) result }
    {
        self.step(shares, Call::Put(key, value, now), notices)?;
        Ok(())
    }

    /// Takes the key's entry out, and returns whether an unexpired one left. Its current load is no
    /// longer joined.
    ///
    /// `now` is in milliseconds. `StepsSpent` comes before `NoMemory`; only the lagging copy may
    /// take memory. Expected amortised O(1), unless an attacker chooses the keys (see `Seeded`),
    /// and the cost of the dropped records.
    pub fn drop_key(
        &mut self,
        shares: &mut Shares<S, H>,
        key: K,
        now: u64,
        notices: &mut Notices<K, V>,
    ) -> Result<bool, Fault>
        requires asked { MayAsk V.answers K.word S.ShardLedger.place
            (call.DropKey key now) notices.old }
        ensures made { IsShardCall (members_by K.eq K.word V.measure V.answers) V.Share.is_copied
            S.ShardLedger.place.config.entries (call.DropKey key now) reply.Dropped (λ _. [])
            (owned self.old shares.old notices.old) (owned self.new shares.new notices.new) result }
    {
        match self.step(shares, Call::DropKey(key, now), notices)? {
            Reply::Dropped(left) => Ok(left),
            _ => unreachable!(),
        }
    }

    /// Takes every entry out. Loads open now are no longer joined, nor are their values stored.
    ///
    /// `now` is in milliseconds. `StepsSpent` comes before `NoMemory`; only the lagging copy may
    /// take memory. O(entries), and the cost of the dropped records.
    pub fn clear(
        &mut self,
        shares: &mut Shares<S, H>,
        now: u64,
        notices: &mut Notices<K, V>,
    ) -> Result<(), Fault>
        requires room { S.ShardLedger.place.config.entries ≤ notices.old.room }
        ensures made { IsShardCall (members_by K.eq K.word V.measure V.answers) V.Share.is_copied
            S.ShardLedger.place.config.entries (call.Clear now) (λ _. reply.Cleared) (λ _. [])
            (owned self.old shares.old notices.old) (owned self.new shares.new notices.new) result }
    {
        self.step(shares, Call::Clear(now), notices)?;
        Ok(())
    }

    /// Lets no further caller join the key's current load, keeps its value out, and returns whether
    /// there was one.
    ///
    /// `now` is in milliseconds. `StepsSpent` comes before `NoMemory`; only the lagging copy may
    /// take memory. Expected amortised O(1), unless an attacker chooses the keys (see `Seeded`),
    /// and the cost of the dropped records.
    pub fn forget(
        &mut self,
        shares: &mut Shares<S, H>,
        key: K,
        now: u64,
        notices: &mut Notices<K, V>,
    ) -> Result<bool, Fault>
        requires asked { MayAsk V.answers K.word S.ShardLedger.place
            (call.Forget key now) notices.old }
        ensures made { IsShardCall (members_by K.eq K.word V.measure V.answers) V.Share.is_copied
            S.ShardLedger.place.config.entries (call.Forget key now) reply.Forgot (λ _. [])
            (owned self.old shares.old notices.old) (owned self.new shares.new notices.new) result }
    {
        match self.step(shares, Call::Forget(key, now), notices)? {
            Reply::Forgot(was) => Ok(was),
            _ => unreachable!(),
        }
    }

    /// Takes every expired entry out.
    ///
    /// `now` is in milliseconds. `StepsSpent` comes before `NoMemory`; only the lagging copy may
    /// take memory. O(entries), and the cost of the dropped records.
    pub fn clean(
        &mut self,
        shares: &mut Shares<S, H>,
        now: u64,
        notices: &mut Notices<K, V>,
    ) -> Result<(), Fault>
        requires room { S.ShardLedger.place.config.entries ≤ notices.old.room }
        ensures made { IsShardCall (members_by K.eq K.word V.measure V.answers) V.Share.is_copied
            S.ShardLedger.place.config.entries (call.Clean now) (λ _. reply.Cleaned) (λ _. [])
            (owned self.old shares.old notices.old) (owned self.new shares.new notices.new) result }
    {
        self.step(shares, Call::Clean(now), notices)?;
        Ok(())
    }

    /// Moves the border between window and main by one entry, and returns whether it moved. No entry
    /// leaves.
    ///
    /// `now` is in milliseconds. `StepsSpent` comes before `NoMemory`. Takes memory as
    /// [`Core::slide`](wt_core::Core::slide) does, in the cache and in the lagging copy. Expected
    /// O(1), as there, and what the dropped records cost.
    pub fn slide(
        &mut self,
        shares: &mut Shares<S, H>,
        wider: bool,
        now: u64,
        notices: &mut Notices<K, V>,
    ) -> Result<bool, Fault>
        requires room { S.ShardLedger.place.config.entries ≤ notices.old.room }
        ensures made { IsShardCall (members_by K.eq K.word V.measure V.answers) V.Share.is_copied
            S.ShardLedger.place.config.entries (call.Slide wider now) reply.Slid (λ _. [])
            (owned self.old shares.old notices.old) (owned self.new shares.new notices.new) result }
    {
        match self.step(shares, Call::Slide { wider, now }, notices)? {
            Reply::Slid(moved) => Ok(moved),
            _ => unreachable!(),
        }
    }
}
