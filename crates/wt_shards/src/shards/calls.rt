// The calls of the shards. A call with a key is one step at the key's shard, under its lock; a clear
// and a clean are a step at each shard in turn.
ghost use Rattle.std.specs.Prelude.{◌≡◌, ◌<◌, ◌≤◌, ◌*◌, IsTrue, IfOk, IfErr, Err, true, false};
ghost use Rattle.wt_keys.specs.declared.fault.Fault.TheVariants as fault;
ghost use Rattle.wt_core.specs.Faults.{is_step_fault};
ghost use Rattle.wt_core.specs.declared.calls.Call.TheVariants as call;
ghost use Rattle.wt_core.specs.declared.calls.Reply.TheVariants as reply;
ghost use Rattle.wt_shards.specs.Asked.{AnswersAsked, LandAnswers, MayAsk, ReplyAnswers, is_seek};
ghost use Rattle.wt_shards.specs.Contract.{IsHomeCall, IsLockedCall, IsSweepCall};
ghost use Rattle.wt_shards.specs.Members.{members_of};
ghost use Rattle.wt_shards.specs.Outer.{IsOfKey};
ghost use Rattle.wt_shards.specs.Landings.{IsShared, book_at};
ghost use Rattle.wt_shards.specs.Place.{home_at, home_of, place_of};
ghost use Rattle.wt_shards.specs.Sought.{reply_of};

use crate::at_home::at_home;
use crate::books::Books;
use crate::done::Done;
use crate::landings::Sharing;
use crate::pass::Pass;
use crate::recorded::Recorded;
use crate::shard_ledger::ShardLedger;
use crate::shard_pass::ShardPass;
use crate::shards::Shards;
use crate::sought::Sought;
use crate::sweep::Sweep;
use crate::value::Value;
use std::sync::Wait;
use std::sync::ledger::Ledger;
use wt_core::{Call, Land, Notices, Reply};
use wt_flights::Lead;
use wt_keys::{CacheKey, Fault, shard_of};
use wt_stripes::Striped;

// One call at one shard, which isn't a seek.
#[inline(always)]
fn step_at<K: CacheKey, V: Value<K>, S: ShardLedger, H: Ledger, R: Wait>(
    rt: &R,
    shard: &Striped<Recorded<K, V, S, H>>,
    pass: &mut ShardPass<K, V, S, H>,
    call: Call<K, V>,
    notices: &mut Notices<K, V>,
) -> Result<Done<Reply<V>>, Fault>
    requires asked { MayAsk V.answers K.word S.ShardLedger.place call notices.old }
    requires plain { is_seek call ≡ false }
    ensures made { IsLockedCall (members_of K.CacheKey V.Value) S.ShardLedger.place call
        (λ reply. reply) pass.old pass.new notices.old notices.new result }
    ensures answers { IfOk result (λ done. AnswersAsked V.answers call done.reply) }
{
    let mut held = shard.write(rt);
    held.value(rt).step(rt, pass, call, notices)
}

// One seek at one shard.
#[inline(always)]
fn seek_at<K: CacheKey, V: Value<K>, S: ShardLedger, H: Ledger, R: Wait>(
    rt: &R,
    shard: &Striped<Recorded<K, V, S, H>>,
    pass: &mut ShardPass<K, V, S, H>,
    key: K,
    now: u64,
    notices: &mut Notices<K, V>,
) -> Result<Done<Sharing<K, V>>, Fault>
    requires asked { MayAsk V.answers K.word S.ShardLedger.place (call.Seek key now) notices.old }
    ensures made { IsLockedCall (members_of K.CacheKey V.Value) S.ShardLedger.place
        (call.Seek key now) (λ r. reply_of r.sought) pass.old pass.new notices.old notices.new
        result }
    ensures answers { IfOk result (λ done. ReplyAnswers V.answers key
        (reply_of done.reply.sought)) }
    ensures asked { IfOk result (λ done. IsOfKey key now done.reply.sought) }
    ensures shared { IfOk result (λ done. IsShared S.Naming.book done.reply) }
{
    let mut held = shard.write(rt);
    held.value(rt).seek(rt, pass, key, now, notices)
}

impl<K: CacheKey, V: Value<K>, B: Books> Shards<K, V, B> {
    // One call at the shard of a number, which isn't a seek.
    #[inline(always)]
    pub(crate) fn step<R: Wait>(
        &self,
        rt: &R,
        pass: &mut Pass<K, V, B>,
        home: usize,
        call: Call<K, V>,
        notices: &mut Notices<K, V>,
    ) -> Result<Done<Reply<V>>, Fault>
        requires within { home < self.now.shards }
        requires asked { MayAsk V.answers K.word (place_of home self.now) call notices.old }
        requires plain { is_seek call ≡ false }
        ensures made { IsHomeCall (members_of K.CacheKey V.Value) (place_of home self.now) call
            (λ reply. reply) pass.old pass.new notices.old notices.new result }
        ensures answers { IfOk result (λ done. AnswersAsked V.answers call done.reply) }
    {
        at_home!(
            home,
            self,
            pass,
            |shard, part| step_at(rt, shard, part, call, notices)
        )
    }

    /// Looks the key up at its shard, and returns `Hit` with a share of its value, or `Absent`, and
    /// the number of the step there.
    ///
    /// `now` is in milliseconds. `StepsSpent` comes before `NoMemory`. Only a hit takes memory, and
    /// none if a share is a copy and the entry isn't in probation; the shard's lagging copy may.
    /// Takes that shard's lock, for one step. Expected amortised O(1), unless an attacker chooses
    /// the keys (see `Seeded`). Not promised: that the call returns, and that the result still
    /// holds when it does.
    pub fn look<R: Wait>(
        &self,
        rt: &R,
        pass: &mut Pass<K, V, B>,
        key: K,
        now: u64,
        notices: &mut Notices<K, V>,
    ) -> Result<Done<Reply<V>>, Fault>
        requires room { self.now.config.entries ≤ notices.old.room }
        ensures made { IsHomeCall (members_of K.CacheKey V.Value) (home_at K.word key self.now)
            (call.Look key now) (λ reply. reply) pass.old pass.new notices.old notices.new result }
        ensures answers { IfOk result (λ done. ReplyAnswers V.answers key done.reply) }
    {
        let home = shard_of(key.word(), self.shards);
        self.step(rt, pass, home, Call::Look(key, now), notices)
    }

    /// Looks the key up at its shard; if it isn't there, joins its current load or opens one.
    /// Returns the number of the step there too.
    ///
    /// The reply is `Hit`, a `Join` with a ticket, or a `Lead` with the right to load and a ticket;
    /// or `HitLead`, if the entry is due. `now` is in milliseconds. `StepsSpent` comes before
    /// `TooManyFlights`, and both before memory is asked for. Takes that shard's lock, for one
    /// step. Expected amortised O(1), unless an attacker chooses the keys (see `Seeded`);
    /// O(log(open loads)) on a join. Not promised: that it returns.
    pub fn seek<R: Wait>(
        &self,
        rt: &R,
        pass: &mut Pass<K, V, B>,
        key: K,
        now: u64,
        notices: &mut Notices<K, V>,
    ) -> Result<Done<Sought<K, V>>, Fault>
        requires room { self.now.config.entries ≤ notices.old.room }
        ensures made { IsHomeCall (members_of K.CacheKey V.Value) (home_at K.word key self.now)
            (call.Seek key now) reply_of pass.old pass.new notices.old notices.new result }
        ensures answers { IfOk result (λ done. ReplyAnswers V.answers key (reply_of done.reply)) }
        ensures asked { IfOk result (λ done. IsOfKey key now done.reply) }
    {
        let done = self.seek_sharing(rt, pass, key, now, notices)?;
        Ok(Done {
            step: done.step,
            reply: done.reply.sought,
        })
    }

    /// Seeks the key as `seek` does, and also returns which landing each load of its shard has that
    /// was opened so far. By these, callers that share a load know that they get the same outcome:
    /// see [`Landings::compare`](crate::Landings::compare).
    pub fn seek_sharing<R: Wait>(
        &self,
        rt: &R,
        pass: &mut Pass<K, V, B>,
        key: K,
        now: u64,
        notices: &mut Notices<K, V>,
    ) -> Result<Done<Sharing<K, V>>, Fault>
        requires room { self.now.config.entries ≤ notices.old.room }
        ensures made { IsHomeCall (members_of K.CacheKey V.Value) (home_at K.word key self.now)
            (call.Seek key now) (λ r. reply_of r.sought) pass.old pass.new notices.old notices.new
            result }
        ensures answers { IfOk result (λ done. ReplyAnswers V.answers key
            (reply_of done.reply.sought)) }
        ensures asked { IfOk result (λ done. IsOfKey key now done.reply.sought) }
        ensures shared { IfOk result (λ done. IsShared (book_at (home_of K.word key self.now)
            B.S0.Naming.book B.S1.Naming.book B.S2.Naming.book B.S3.Naming.book) done.reply) }
    {
        let home = shard_of(key.word(), self.shards);
        at_home!(
            home,
            self,
            pass,
            |shard, part| seek_at(rt, shard, part, key, now, notices)
        )
    }

    /// Closes the load of `lead`, if it is open, and returns `Kept`, `Loose` or `Failed` with the
    /// number of its sharers. If it isn't open, returns `Gone`. Both come with the number of the
    /// step at the key's shard.
    ///
    /// `now` is in milliseconds. Only a landing that would return `Gone` may fail with
    /// `StepsSpent`, or take memory for the lagging copy; a value that is stored takes memory too.
    /// Takes that shard's lock, for one step. Expected O(log(open loads)) and a move of the
    /// landings behind it, O(entries) if many leave. Not promised: that it returns. A lead of
    /// another `Shards` closes at most a load with its id and key.
    pub fn land<R: Wait>(
        &self,
        rt: &R,
        pass: &mut Pass<K, V, B>,
        lead: &Lead<K, V>,
        what: Land<V>,
        now: u64,
        notices: &mut Notices<K, V>,
    ) -> Result<Done<Reply<V>>, Fault>
        requires answers { LandAnswers V.answers lead.now.key what }
        requires room { self.now.config.entries ≤ notices.old.room }
        ensures made { IsHomeCall (members_of K.CacheKey V.Value)
            (home_at K.word lead.now.key self.now) (call.Land lead.now.id lead.now.key what now)
            (λ reply. reply) pass.old pass.new notices.old notices.new result }
    {
        let key = lead.key();
        let home = shard_of(key.word(), self.shards);
        self.step(
            rt,
            pass,
            home,
            Call::Land(lead.id(), key, what, now),
            notices,
        )
    }

    /// Stores the value under the key, in place of one that is there, and returns the number of the
    /// step at the key's shard.
    ///
    /// `now` is in milliseconds. `TooHeavy` comes before `StepsSpent`, and both before memory is
    /// asked for; the refused value is dropped. Takes that shard's lock, for one step. Expected
    /// amortised O(1), unless an attacker chooses the keys (see `Seeded`); O(entries) if many
    /// leave. Not promised: that it returns.
    pub fn put<R: Wait>(
        &self,
        rt: &R,
        pass: &mut Pass<K, V, B>,
        key: K,
        value: V,
        now: u64,
        notices: &mut Notices<K, V>,
    ) -> Result<Done<()>, Fault>
        requires answers { IsTrue (V.answers value key) }
        requires room { self.now.config.entries ≤ notices.old.room }
        ensures made { IsHomeCall (members_of K.CacheKey V.Value) (home_at K.word key self.now)
            (call.Put key value now) (λ _. reply.Stored) pass.old pass.new notices.old notices.new
            result }
        ensures heavy { self.now.config.bound < (V.measure value).weight
            → result ≡ Err (fault.TooHeavy (V.measure value).weight self.now.config.bound) }
        // No other value is too heavy.
        ensures light { (V.measure value).weight ≤ self.now.config.bound
            → IfErr result (λ f. is_step_fault f ≡ true) }
    {
        let home = shard_of(key.word(), self.shards);
        let done = self.step(rt, pass, home, Call::Put(key, value, now), notices)?;
        Ok(Done {
            step: done.step,
            reply: (),
        })
    }

    /// Takes the key's entry out, and returns whether an unexpired one left, and the number of the
    /// step at the key's shard. Its current load is no longer joined.
    ///
    /// `now` is in milliseconds. `StepsSpent` comes before `NoMemory`; only the shard's lagging
    /// copy may take memory. Takes that shard's lock, for one step. Expected amortised O(1), unless
    /// an attacker chooses the keys (see `Seeded`). Not promised: that it returns.
    pub fn drop_key<R: Wait>(
        &self,
        rt: &R,
        pass: &mut Pass<K, V, B>,
        key: K,
        now: u64,
        notices: &mut Notices<K, V>,
    ) -> Result<Done<bool>, Fault>
        requires room { self.now.config.entries ≤ notices.old.room }
        ensures made { IsHomeCall (members_of K.CacheKey V.Value) (home_at K.word key self.now)
            (call.DropKey key now) reply.Dropped pass.old pass.new notices.old notices.new result }
    {
        let home = shard_of(key.word(), self.shards);
        let done = self.step(rt, pass, home, Call::DropKey(key, now), notices)?;
        let Reply::Dropped(left) = done.reply else {
            unreachable!()
        };
        Ok(Done {
            step: done.step,
            reply: left,
        })
    }

    /// Takes every entry of every shard out, by one step at each in turn. No further caller joins a
    /// load that is open at a shard at the moment of its step, and its value isn't stored.
    ///
    /// `now` is in milliseconds. Stops at the first shard that refuses its step: with `StepsSpent`,
    /// or with `NoMemory` if its lagging copy finds none. Takes each shard's lock in turn, never
    /// two at once. O(entries) a shard. Not promised: that it returns, and that at some moment all
    /// shards are empty.
    pub fn clear<R: Wait>(
        &self,
        rt: &R,
        pass: &mut Pass<K, V, B>,
        now: u64,
        notices: &mut Notices<K, V>,
    ) -> Result<(), Fault>
        requires room { self.now.shards * self.now.config.entries ≤ notices.old.room }
        ensures made { IsSweepCall (members_of K.CacheKey V.Value) self.now (call.Clear now)
            pass.old pass.new notices.old notices.new result }
    {
        self.sweep(rt, pass, Sweep::Clear, now, notices)
    }

    /// Lets no further caller join the key's current load, keeps its value out, and returns whether
    /// there was one, and the number of the step at the key's shard.
    ///
    /// `now` is in milliseconds. `StepsSpent` comes before `NoMemory`; only the shard's lagging
    /// copy may take memory. Takes that shard's lock, for one step. Expected amortised O(1), unless
    /// an attacker chooses the keys (see `Seeded`). Not promised: that it returns.
    pub fn forget<R: Wait>(
        &self,
        rt: &R,
        pass: &mut Pass<K, V, B>,
        key: K,
        now: u64,
        notices: &mut Notices<K, V>,
    ) -> Result<Done<bool>, Fault>
        requires room { self.now.config.entries ≤ notices.old.room }
        ensures made { IsHomeCall (members_of K.CacheKey V.Value) (home_at K.word key self.now)
            (call.Forget key now) reply.Forgot pass.old pass.new notices.old notices.new result }
    {
        let home = shard_of(key.word(), self.shards);
        let done = self.step(rt, pass, home, Call::Forget(key, now), notices)?;
        let Reply::Forgot(was) = done.reply else {
            unreachable!()
        };
        Ok(Done {
            step: done.step,
            reply: was,
        })
    }

    /// Takes every expired entry of every shard out, by one step at each in turn.
    ///
    /// `now` is in milliseconds. Stops at the first shard that refuses its step: with `StepsSpent`,
    /// or with `NoMemory` if its lagging copy finds none. Takes each shard's lock in turn, never
    /// two at once. O(entries) a shard. Not promised: that it returns.
    pub fn clean<R: Wait>(
        &self,
        rt: &R,
        pass: &mut Pass<K, V, B>,
        now: u64,
        notices: &mut Notices<K, V>,
    ) -> Result<(), Fault>
        requires room { self.now.shards * self.now.config.entries ≤ notices.old.room }
        ensures made { IsSweepCall (members_of K.CacheKey V.Value) self.now (call.Clean now)
            pass.old pass.new notices.old notices.new result }
    {
        self.sweep(rt, pass, Sweep::Clean, now, notices)
    }

    /// Moves the border between window and main of the key's shard by one entry, and returns whether
    /// it moved, and the number of the step there. No entry leaves.
    ///
    /// `now` is in milliseconds. `StepsSpent` comes before `NoMemory`. Takes memory as
    /// [`Core::slide`](wt_core::Core::slide) does, in the cache and in the lagging copy. Takes that
    /// shard's lock, for one step. Expected O(1), as there. Not promised: that it returns.
    pub fn slide<R: Wait>(
        &self,
        rt: &R,
        pass: &mut Pass<K, V, B>,
        key: K,
        wider: bool,
        now: u64,
        notices: &mut Notices<K, V>,
    ) -> Result<Done<bool>, Fault>
        requires room { self.now.config.entries ≤ notices.old.room }
        ensures made { IsHomeCall (members_of K.CacheKey V.Value) (home_at K.word key self.now)
            (call.Slide wider now) reply.Slid pass.old pass.new notices.old notices.new result }
        ensures none { notices.new ≡ notices.old }
    {
        let home = shard_of(key.word(), self.shards);
        let done = self.step(rt, pass, home, Call::Slide { wider, now }, notices)?;
        let Reply::Slid(moved) = done.reply else {
            unreachable!()
        };
        Ok(Done {
            step: done.step,
            reply: moved,
        })
    }
}
