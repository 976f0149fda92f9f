// The seek of a shard: a look-up that opens or joins a load.
ghost use Rattle.std.specs.Prelude.{◌≡◌, ◌<◌, ◌⊎◌, None, Ok, IfOk, IfSome, IsNone, OnErr};
ghost use Rattle.wt_regions.specs.Notices.{NoticeList};
ghost use Rattle.wt_core.specs.Step.{refusal_of};
ghost use Rattle.wt_core.specs.declared.calls.Call.TheVariants as call;
ghost use Rattle.wt_shards.specs.Asked.{IsAsked, MayAsk, ReplyAnswers};
ghost use Rattle.wt_shards.specs.Audited.{IsReadied, excess};
ghost use Rattle.wt_shards.specs.Contract.{IsShardCall, owned};
ghost use Rattle.wt_shards.specs.Members.{members_by};
ghost use Rattle.wt_shards.specs.Peeks.{FoundAnswers};
ghost use Rattle.wt_shards.specs.Sought.{reply_of};
ghost use Rattle.wt_shards.specs.declared.sought.Sought.TheVariants as sought;

use crate::kept::{Kept, find_kept};
use crate::shard::Shard;
use crate::shard_ledger::ShardLedger;
use crate::shares::Shares;
use crate::sought::Sought;
use std::sync::ledger::Ledger;
use wt_core::{Call, Foreseen, Notices, Reply, Weighs};
use wt_keys::{Answers, CacheKey, Fault, NoMemory, Share};

impl<K: CacheKey, V: Share + Weighs + Answers<K>, S: ShardLedger, H: Ledger> Shard<K, V, S, H> {
    ghost use Rattle.wt_shards.specs.Sought.{IsOfLandings, opened_by};

    /// Looks the key up at the moment `now`; if it isn't there, joins its current load or opens
    /// one.
    ///
    /// Returns `Hit`, a `Join` with a ticket, or a `Lead` with the right to load and a ticket; or
    /// `HitLead`, if the entry is due. Leads and tickets are of the landing that the shard keeps
    /// for the load; the lead's moment is `now`, in milliseconds. `StepsSpent` comes before
    /// `TooManyFlights`, and both before memory is asked for. A load takes memory, a join does for
    /// its ticket, and a hit as a look's; the lagging copy may. Expected amortised O(1), unless an
    /// attacker chooses the keys (see `Seeded`); O(log(open loads)) on a join; and the cost of the
    /// dropped records.
    #[tactic(auto, using(crate::proofs::Told::told_none))]
    pub fn seek(
        &mut self,
        shares: &mut Shares<S, H>,
        key: K,
        now: u64,
        notices: &mut Notices<K, V>,
    ) -> Result<Sought<K, V>, Fault>
        requires asked { MayAsk V.answers K.word S.ShardLedger.place
            (call.Seek key now) notices.old }
        ensures made { IsShardCall (members_by K.eq K.word V.measure V.answers) V.Share.is_copied
            S.ShardLedger.place.config.entries (call.Seek key now) reply_of opened_by
            (owned self.old shares.old notices.old) (owned self.new shares.new notices.new) result }
        ensures landings { IfOk result (IsOfLandings key now self.new.landings) }
        ensures answers { IfOk result (λ sought. ReplyAnswers V.answers key (reply_of sought)) }
    {
        let Ok(found) = self.seek_protected(shares, key, now) else {
            return Err(Fault::NoMemory);
        };
        match found {
            Some(value) => Ok(Sought::Hit(value)),
            None => self.seek_met(shares, key, now, notices),
        }
    }

    // Makes the step of a seek that hits an entry of protected, by one search, and records it. Returns
    // None for another seek, which isn't made: then some records may have gone over to the lagging copy,
    // but only those that the seek moves anyway, and none if it may be refused.
    #[inline(always)]
    #[tactic(auto, using(crate::proofs::Told::told_none))]
    fn seek_protected(
        &mut self,
        shares: &mut Shares<S, H>,
        key: K,
        now: u64,
    ) -> Result<Option<V>, NoMemory>
        requires asked { IsAsked V.answers K.word S.ShardLedger.place.shards
            S.ShardLedger.place.index (call.Seek key now) }
        ensures made { IfOk result (λ found. IfSome found (λ value. (list : NoticeList K V)
            → IsShardCall (members_by K.eq K.word V.measure V.answers) V.Share.is_copied
            S.ShardLedger.place.config.entries (call.Seek key now) reply_of opened_by
            (owned self.old shares.old list) (owned self.new shares.new list)
            (Ok (sought.Hit value)))) }
        ensures answers { IfOk result (FoundAnswers V.answers key) }
        ensures missed { IfOk result (λ found. IsNone found
            → IsReadied K.eq K.word V.measure (call.Seek key now) self.old self.new
            × (shares.new ≡ shares.old)
            × ((self.new ≡ self.old) ⊎ (refusal_of K.eq K.word V.measure self.old.core
            (call.Seek key now) ≡ None))) }
        ensures err { OnErr result (IsReadied K.eq K.word V.measure (call.Seek key now) self.old
            self.new × (shares.new ≡ shares.old)
            × (refusal_of K.eq K.word V.measure self.old.core (call.Seek key now) ≡ None)
            × (0 < excess K.eq K.word V.measure (call.Seek key now) self.old)) }
    {
        let Some(rows) = self.core.open_unless_full() else {
            return Ok(None);
        };
        let Ok(()) = self.make_room(rows) else {
            return Err(NoMemory);
        };
        let Some(value) = self.core.hit_protected(key, now) else {
            return Ok(None);
        };
        // For the prover: shows what holds of the cache at all times.
        let _stats = self.core.stats();
        let Ok(()) = self.ring.try_push_back(Call::Seek(key, now)) else {
            unreachable!()
        };
        let ledgers = &mut self.ledgers;
        shares.count(&mut ledgers.value.steps, &mut ledgers.value.hits, true);
        Ok(Some(value))
    }

    // Makes the step of any seek: looks ahead at what it meets, and makes the landing of a load before
    // the step.
    #[tactic(auto, using(crate::proofs::Told::told_none, crate::proofs::Seeks::free_foreseen))]
    fn seek_met(
        &mut self,
        shares: &mut Shares<S, H>,
        key: K,
        now: u64,
        notices: &mut Notices<K, V>,
    ) -> Result<Sought<K, V>, Fault>
        requires asked { MayAsk V.answers K.word S.ShardLedger.place
            (call.Seek key now) notices.old }
        ensures made { IsShardCall (members_by K.eq K.word V.measure V.answers) V.Share.is_copied
            S.ShardLedger.place.config.entries (call.Seek key now) reply_of opened_by
            (owned self.old shares.old notices.old) (owned self.new shares.new notices.new) result }
        ensures landings { IfOk result (IsOfLandings key now self.new.landings) }
        ensures answers { IfOk result (λ sought. ReplyAnswers V.answers key (reply_of sought)) }
    {
        let met = self.core.foresee(key, now);
        let rows = match self.core.open_met(key, now, &met) {
            Ok(rows) => rows,
            Err(fault) => return Err(fault),
        };
        match met {
            Foreseen::Hit => {
                let reply = self.make_allowed(
                    shares,
                    Call::Seek(key, now),
                    Some(false),
                    rows,
                    None,
                    notices,
                )?;
                let Reply::Hit(value) = reply else {
                    unreachable!()
                };
                Ok(Sought::Hit(value))
            }
            Foreseen::Join(id) => {
                let Some(kept) = find_kept(&self.landings, id) else {
                    unreachable!()
                };
                let Ok(ticket) = kept.ticket() else {
                    self.stay(&Call::Seek(key, now));
                    return Err(Fault::NoMemory);
                };
                self.make_allowed(
                    shares,
                    Call::Seek(key, now),
                    Some(false),
                    rows,
                    None,
                    notices,
                )?;
                Ok(Sought::Join(ticket))
            }
            Foreseen::Lead(id) => {
                let Ok((kept, lead, ticket)) = Kept::start(self.alloc, id, key, now) else {
                    self.stay(&Call::Seek(key, now));
                    return Err(Fault::NoMemory);
                };
                self.make_allowed(
                    shares,
                    Call::Seek(key, now),
                    Some(false),
                    rows,
                    Some(kept),
                    notices,
                )?;
                Ok(Sought::Lead(lead, ticket))
            }
            Foreseen::HitLead(id) => {
                let Ok((kept, lead, ticket)) = Kept::start(self.alloc, id, key, now) else {
                    self.stay(&Call::Seek(key, now));
                    return Err(Fault::NoMemory);
                };
                let reply = self.make_allowed(
                    shares,
                    Call::Seek(key, now),
                    Some(true),
                    rows,
                    Some(kept),
                    notices,
                )?;
                let Reply::HitLead(value, _) = reply else {
                    unreachable!()
                };
                Ok(Sought::HitLead(value, lead, ticket))
            }
        }
    }
}
