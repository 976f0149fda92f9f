// A shard with the history of its calls, as it lies behind its lock.
//
// A contract knows only the type of a value behind a lock. So a caller doesn't know the shard's
// state, but that it is the outcome of the history. The caller's own front is a beginning of that
// history.
ghost use Rattle.std.specs.Prelude.{◌≡◌, IfOk, IfErr, false};
ghost use mathlib.Core.List.{IsPrefix};
ghost use Rattle.wt_keys.specs.declared.fault.Fault.TheVariants as fault;
ghost use Rattle.wt_core.specs.declared.calls.Call.TheVariants as call;
ghost use Rattle.wt_shards.specs.Asked.{AnswersAsked, MayAsk, ReplyAnswers, is_seek};
ghost use Rattle.wt_shards.specs.Contract.{IsLockedCall};
ghost use Rattle.wt_shards.specs.Landings.{IsShared};
ghost use Rattle.wt_shards.specs.Peeks.{FoundAnswers, IsLockedPeek};
ghost use Rattle.wt_shards.specs.Members.{members_by};
ghost use Rattle.wt_shards.specs.Numbers.{AreNumbersOf};
ghost use Rattle.wt_shards.specs.Outer.{IsOfKey};
ghost use Rattle.wt_shards.specs.Passes.{new_shard_pass};
ghost use Rattle.wt_shards.specs.Sought.{reply_of};
ghost use Rattle.wt_shards.specs.Totals.{IsEnding};

use crate::done::Done;
use crate::ended::Ended;
use crate::landings::{Answered, Landings, Opens, Sharing};
use crate::shard::Shard;
use crate::shard_ledger::ShardLedger;
use crate::shard_pass::ShardPass;
use std::marker::Model;
use std::sync::Wait;
use std::sync::ledger::Ledger;
use wt_core::{Call, Notices, Reply, Stats, Weighs};
use wt_history::History;
use wt_keys::{Answers, CacheKey, Fault, Share};

/// A shard, and the history that its state is the outcome of.
#[derive(Drop)]
pub(crate) struct Recorded<K: CacheKey, V: Share + Weighs + Answers<K>, S: ShardLedger, H: Ledger> {
    pub(crate) shard: Shard<K, V, S, H>,
    pub(crate) history: History<Call<K, V>, S>,
}

impl<K: CacheKey, V: Share + Weighs + Answers<K>, S: ShardLedger, H: Ledger> Model
    for Recorded<K, V, S, H> {
    ghost use Rattle.std.specs.Prelude.{◌≡◌, List, length};
    ghost use Rattle.wt_core.specs.declared.calls.Call.{Call};
    ghost use Rattle.wt_shards.specs.History.{state_after};
    ghost use Rattle.wt_shards.specs.Landings.{AreTagged};

    ghost Value = { List (Call K V) };

    ghost view = { λ r. r.history.entries };

    // The history's tags are the landings of the loads that it opened.
    ghost invariant = { λ r.
        (r.shard.core ≡ state_after K.eq K.word V.measure S.ShardLedger.place.config r.history.entries)
        × (r.shard.core.step ≡ length r.history.entries)
        × AreTagged r.history.tags r.shard.core.flights.next r.shard.landings };
}

impl<K: CacheKey, V: Share + Weighs + Answers<K>, S: ShardLedger, H: Ledger> Recorded<K, V, S, H> {
    // Opens a caller's pass at this shard, of nothing yet.
    pub(crate) fn open_pass(&mut self) -> Result<ShardPass<K, V, S, H>, Fault>
        ensures ok { IfOk result (λ pass. pass ≡ new_shard_pass) }
        ensures spent { IfErr result (λ f. f ≡ fault.PassesSpent) }
    {
        let front = self.history.front();
        match self.shard.shares() {
            Ok(shares) => Ok(ShardPass {
                shares,
                front,
                stripe: self.shard.given as usize,
            }),
            Err(fault) => Err(fault),
        }
    }

    // One call, which isn't a seek.
    #[inline(always)]
    pub(crate) fn step<R: Wait>(
        &mut self,
        rt: &R,
        pass: &mut ShardPass<K, V, S, H>,
        call: Call<K, V>,
        notices: &mut Notices<K, V>,
    ) -> Result<Done<Reply<V>>, Fault>
        requires asked { MayAsk V.answers K.word S.ShardLedger.place call notices.old }
        requires plain { is_seek call ≡ false }
        ensures made { IsLockedCall (members_by K.eq K.word V.measure V.answers) S.ShardLedger.place
            call (λ reply. reply) pass.old pass.new notices.old notices.new result }
        ensures answers { IfOk result (λ done. AnswersAsked V.answers call done.reply) }
    {
        let step = self.shard.steps();
        let asked = self.history.ask(&call);
        match self.shard.step(&mut pass.shares, call, notices) {
            Ok(reply) => {
                self.history.write(rt, &mut pass.front, asked, step);
                return Ok(Done {
                    step: step + 1,
                    reply,
                });
            }
            Err(fault) => {
                self.history.show(rt, &mut pass.front);
                return Err(fault);
            }
        }
    }

    // One seek.
    #[inline(always)]
    pub(crate) fn seek<R: Wait>(
        &mut self,
        rt: &R,
        pass: &mut ShardPass<K, V, S, H>,
        key: K,
        now: u64,
        notices: &mut Notices<K, V>,
    ) -> Result<Done<Sharing<K, V>>, Fault>
        requires asked { MayAsk V.answers K.word S.ShardLedger.place
            (call.Seek key now) notices.old }
        ensures made { IsLockedCall (members_by K.eq K.word V.measure V.answers) S.ShardLedger.place
            (call.Seek key now) (λ r. reply_of r.sought) pass.old pass.new notices.old notices.new
            result }
        ensures answers { IfOk result (λ done. ReplyAnswers V.answers key
            (reply_of done.reply.sought)) }
        ensures asked { IfOk result (λ done. IsOfKey key now done.reply.sought) }
        ensures shared { IfOk result (λ done. IsShared S.Naming.book done.reply) }
    {
        let step = self.shard.steps();
        match self.shard.seek(&mut pass.shares, key, now, notices) {
            Ok(sought) => {
                let answered = Answered { key, now, sought };
                let asked = self.history.ask_tagged::<Answered<K, V>, Opens>(&answered);
                self.history.write(rt, &mut pass.front, asked, step);
                return Ok(Done {
                    step: step + 1,
                    reply: Sharing {
                        sought: answered.sought,
                        landings: Landings {
                            tags: self.history.tags(),
                        },
                    },
                });
            }
            Err(fault) => {
                self.history.show(rt, &mut pass.front);
                return Err(fault);
            }
        }
    }

    // A share of the value that a look of the key would hit, if it would hit. Is no step, and shows
    // the caller the whole history.
    #[inline(always)]
    pub(crate) fn peek<R: Wait>(
        &self,
        rt: &R,
        pass: &mut ShardPass<K, V, S, H>,
        key: K,
        now: u64,
    ) -> Result<Option<V>, Fault>
        ensures made { IsLockedPeek (members_by K.eq K.word V.measure V.answers) S.ShardLedger.place
            key now pass.old pass.new result }
        ensures answers { IfOk result (FoundAnswers V.answers key) }
    {
        // For the prover: shows `lawful`.
        let _step = self.shard.steps();
        match self.shard.peek(key, now) {
            Ok(found) => {
                self.history.show(rt, &mut pass.front);
                return Ok(found);
            }
            Err(fault) => {
                return Err(fault);
            }
        }
    }

    // The numbers of the shard. Is no step, and shows the caller the whole history.
    #[inline(always)]
    pub(crate) fn stats<R: Wait>(&self, rt: &R, pass: &mut ShardPass<K, V, S, H>) -> Stats
        ensures made { AreNumbersOf (members_by K.eq K.word V.measure V.answers)
            S.ShardLedger.place pass.new.front result }
        ensures later { IsPrefix pass.old.front pass.new.front }
        ensures same { pass.new.counts ≡ pass.old.counts }
    {
        // For the prover: shows `lawful`.
        let _step = self.shard.steps();
        let stats = self.shard.stats();
        self.history.show(rt, &mut pass.front);
        stats
    }

    // Ends the shard and closes its books.
    pub(crate) fn close(self) -> Ended<K, V, S, H>
        ensures calls { result.calls ≡ self }
        // What held of the shard at all times.
        ensures sound { IsEnding (members_by K.eq K.word V.measure V.answers) S.ShardLedger.place
            result }
    {
        let Recorded { shard, history } = self;
        Ended {
            closed: shard.close(),
            whole: history.seen(),
        }
    }
}
