// A step of a shard, whichever call it is: decide, catch up, step, record.
ghost use Rattle.std.specs.Prelude.{◌≡◌, ℕ, ◌+◌, ◌≤◌, None, IfOk, OnOk, OnErr, IsOk, IsOkUnless, MatchOption, Err, length, map, ◌++◌, IfErr, true};
ghost use Rattle.std.specs.Option.{option_to_list};
ghost use Rattle.wt_keys.specs.declared.fault.Fault.TheVariants as fault;
ghost use Rattle.wt_regions.specs.Notices.{appended};
ghost use Rattle.wt_core.specs.declared.calls.Call.TheVariants as call;
ghost use Rattle.wt_shards.specs.Counts.{is_hit, plus_step};
ghost use Rattle.wt_shards.specs.Members.{members_by};
ghost use Rattle.wt_shards.specs.Told.{HasTold};
ghost use Rattle.wt_core.specs.Faults.{is_fault_of};

use crate::kept::{Kept, change};
use crate::lag::catch_up;
use crate::shading::shaded;
use crate::shard::Shard;
use crate::shard_ledger::ShardLedger;
use crate::shares::Shares;
use std::sync::ledger::Ledger;
use wt_core::{Call, Notices, Reply, Weighs, steps_keep_counts, steps_tell_few};
use wt_keys::{Answers, CacheKey, Fault, NoMemory, Share};

impl<K: CacheKey, V: Share + Weighs + Answers<K>, S: ShardLedger, H: Ledger> Shard<K, V, S, H> {
    ghost use Rattle.wt_core.specs.Landings.{IsLanding, IsEmptyLanding, TakesNone};
    ghost use Rattle.wt_core.specs.Seek.{OpensBy};
    ghost use Rattle.wt_core.specs.Step.{step, refusal_of};
    ghost use Rattle.wt_shards.specs.Asked.{AnswersAsked, MayAsk};
    ghost use Rattle.wt_shards.specs.Audited.{IsAudited, IsCaughtUp, excess, load_at, load_of, moved, need, places, shard_step, still_open};

    // Makes the call's step and records it; the landing is that of the load which the step opens.
    // Inlined, so that the compiler specialises it for the caller's call.
    #[inline(always)]
    #[tactic(auto, using(crate::proofs::Told::told_none, crate::proofs::Loads::empty_takes_none))]
    pub(crate) fn make(
        &mut self,
        shares: &mut Shares<S, H>,
        call: Call<K, V>,
        opened: Option<Kept<K, V>>,
        notices: &mut Notices<K, V>,
    ) -> Result<Reply<V>, Fault>
        requires asked { MayAsk V.answers K.word S.ShardLedger.place call notices.old }
        // Where each open load has one landing, each has one after the call.
        requires landed { refusal_of K.eq K.word V.measure self.old.core call ≡ None
            → IsAudited (members_by K.eq K.word V.measure V.answers)
            S.ShardLedger.place.shards S.ShardLedger.place.index self.old
            → map load_at (still_open K.eq call self.old.landings ++ option_to_list opened)
            ≡ map load_of (step K.eq K.word V.measure self.old.core call).state.flights.rows }

        ensures state { OnOk result (self.new
            ≡ shard_step K.eq K.word V.measure call (option_to_list opened) self.old) }
        ensures answer { IfOk result (λ reply. reply
            ≡ (step K.eq K.word V.measure self.old.core call).reply) }
        ensures notices { OnOk result (notices.new
            ≡ appended (step K.eq K.word V.measure self.old.core call).notices notices.old) }
        ensures moved { IfOk result (λ reply. shares.new ≡ plus_step (is_hit reply) shares.old) }
        ensures answers { IfOk result (AnswersAsked V.answers call) }
        ensures later { OnOk result ((shares.old.steps ≤ self.old.core.step)
            × (self.new.core.step ≡ self.old.core.step + 1)) }

        ensures allowed { OnOk result (refusal_of K.eq K.word V.measure self.old.core call ≡ None) }
        ensures refusal { MatchOption (refusal_of K.eq K.word V.measure self.old.core call)
            (IsOkUnless result fault.NoMemory) (λ f. (result ≡ Err f) × (self.new ≡ self.old)) }
        ensures faults { IfErr result (λ f. is_fault_of call f ≡ true) }
        // No memory is refused to a call that takes none if no record goes over.
        ensures none_succeeds { refusal_of K.eq K.word V.measure self.old.core call ≡ None
            → TakesNone V.Share.is_copied K.eq V.measure self.old.core call
            → excess K.eq K.word V.measure call self.old ≡ 0 → IsOk result }
        // Whatever is answered.
        ensures told { HasTold S.ShardLedger.place.config.entries notices.old notices.new }
        // A landing of an open load has its place.
        ensures place { IsLanding K.eq self.old.core call
            → excess K.eq K.word V.measure call self.old ≡ 0 }
        ensures empty_succeeds { IsEmptyLanding K.eq self.old.core call → IsOk result }
        ensures err { OnErr result (IsCaughtUp K.eq K.word V.measure call self.old self.new
            × (shares.new ≡ shares.old) × (notices.new ≡ notices.old)) }
    {
        match self.core.open_after(&call) {
            Ok(rows) => self.make_allowed(shares, call, None, rows, opened, notices),
            Err(fault) => Err(fault),
        }
    }

    // Makes the step of a call that the state doesn't refuse, after which `rows` loads are open. If
    // it is a seek, `opens` may say whether a hit opens a load.
    #[inline(always)]
    #[tactic(auto, using(crate::proofs::Told::told_none, crate::proofs::Loads::empty_takes_none))]
    pub(crate) fn make_allowed(
        &mut self,
        shares: &mut Shares<S, H>,
        call: Call<K, V>,
        opens: Option<bool>,
        rows: usize,
        opened: Option<Kept<K, V>>,
        notices: &mut Notices<K, V>,
    ) -> Result<Reply<V>, Fault>
        requires asked { MayAsk V.answers K.word S.ShardLedger.place call notices.old }
        requires allowed { refusal_of K.eq K.word V.measure self.old.core call ≡ None }
        requires opens { OpensBy K.eq call opens self.old.core }
        requires rows { rows
            ≡ length (step K.eq K.word V.measure self.old.core call).state.flights.rows }
        // Where each open load has one landing, each has one after the call.
        requires landed { IsAudited (members_by K.eq K.word V.measure V.answers)
            S.ShardLedger.place.shards S.ShardLedger.place.index self.old
            → map load_at (still_open K.eq call self.old.landings ++ option_to_list opened)
            ≡ map load_of (step K.eq K.word V.measure self.old.core call).state.flights.rows }

        ensures state { OnOk result (self.new
            ≡ shard_step K.eq K.word V.measure call (option_to_list opened) self.old) }
        ensures answer { IfOk result (λ reply. reply
            ≡ (step K.eq K.word V.measure self.old.core call).reply) }
        ensures notices { OnOk result (notices.new
            ≡ appended (step K.eq K.word V.measure self.old.core call).notices notices.old) }
        ensures moved { IfOk result (λ reply. shares.new ≡ plus_step (is_hit reply) shares.old) }
        ensures answers { IfOk result (AnswersAsked V.answers call) }
        ensures later { OnOk result ((shares.old.steps ≤ self.old.core.step)
            × (self.new.core.step ≡ self.old.core.step + 1)) }

        ensures memory { IsOkUnless result fault.NoMemory }
        ensures none_succeeds { TakesNone V.Share.is_copied K.eq V.measure self.old.core call
            → excess K.eq K.word V.measure call self.old ≡ 0 → IsOk result }
        // Whatever is answered.
        ensures told { HasTold S.ShardLedger.place.config.entries notices.old notices.new }
        // A landing of an open load has its place.
        ensures place { IsLanding K.eq self.old.core call
            → excess K.eq K.word V.measure call self.old ≡ 0 }
        ensures empty_succeeds { IsEmptyLanding K.eq self.old.core call → IsOk result }
        ensures err { OnErr result (IsCaughtUp K.eq K.word V.measure call self.old self.new
            × (shares.new ≡ shares.old) × (notices.new ≡ notices.old)) }
    {
        // For the prover: shows what holds of the shard at all times, how many loads are open after
        // the step, and how many notices it makes at most.
        let _steps = self.steps();
        steps_keep_counts::<K, V>();
        steps_tell_few::<K, V>();
        let Ok(()) = self.make_room(rows) else {
            return Err(Fault::NoMemory);
        };
        let noted = shaded(&call);
        let Ok(reply) = self.core.take_met(call, opens, notices) else {
            return Err(Fault::NoMemory);
        };
        // For the prover: shows what holds of the cache at all times.
        let _stats = self.core.stats();
        change(&mut self.landings, &noted, opened);
        // `make_room` has left a place for it.
        let Ok(()) = self.ring.try_push_back(noted) else {
            unreachable!()
        };
        let ledgers = &mut self.ledgers;
        shares.count(
            &mut ledgers.value.steps,
            &mut ledgers.value.hits,
            hits(&reply),
        );
        Ok(reply)
    }

    // Moves the fewest oldest records over, so that one is recorded and `rows` loads have a place
    // after it.
    #[inline(always)]
    pub(crate) fn make_room(&mut self, rows: usize) -> Result<(), NoMemory>
        requires rows { rows ≤ self.old.config.flights }
        ensures ok { OnOk result
            (self.new ≡ moved K.eq K.word V.measure (need rows self.old) self.old) }
        ensures room { OnOk result (length self.new.records + 1 + rows ≤ places self.new) }
        ensures none_succeeds { need rows self.old ≡ 0 → IsOk result }
        ensures err { OnErr result ((n : ℕ) × (n ≤ need rows self.old)
            × (self.new ≡ moved K.eq K.word V.measure n self.old)) }
    {
        let count = (self.ring.len() + 1 + rows).saturating_sub(self.ring.capacity());
        let Ok(()) = catch_up(&mut self.lagging, &mut self.ring, &mut self.aside, count) else {
            return Err(NoMemory);
        };
        Ok(())
    }

    // Does nothing.
    pub(crate) fn stay(&mut self, call: &Call<K, V>)
        ensures { (self.new ≡ self.old)
            × IsCaughtUp K.eq K.word V.measure call.now self.old self.new }
    {}
}

// Whether a reply counts as a hit.
#[inline(always)]
fn hits<V>(reply: &Reply<V>) -> bool
    ensures { result ≡ is_hit reply.now }
{
    match reply {
        Reply::Hit(_) | Reply::HitLead(_, _) => true,
        _ => false,
    }
}
