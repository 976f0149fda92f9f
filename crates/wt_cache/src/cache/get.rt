// The get: one seek, and by its answer a hit, a wait, or a load that is run here or in a worker.
//
//   hit      seek ──► the value that is there
//   join     seek ──► a ticket ── wait ──► the value that another caller's load brings
//   lead     seek ──► a lead and a ticket ── hand the lead on ── wait ──► the value
//   refresh  seek ──► a value that is due, a lead and a ticket ── hand the lead on ──► that value
//
//   the lead is handed on  ─┬─ to the line: a worker takes it off, and runs the load
//                           ├─ to a line that is closed by then: this caller runs what is in it
//                           └─ to no line, or none that takes it: this caller runs the load
//
// A lead has one owner at a time: the caller whose seek opened the load, the line, or the worker or
// caller that took it off the line. That one lands the load and publishes its outcome. A ticket
// stays with its caller, and each waits on its own. A caller that ran its own load reads what it
// published, and doesn't wait. A get holds no lock while it loads or waits.
ghost use Rattle.std.specs.Prelude.{◌≡◌, ◌*◌, ◌≤◌, [], true, List, Some, None, IsTrue, IfOk, IfErr, IfSome};
ghost use Rattle.wt_flights.specs.Outcomes.{Leading, ticket_of};
ghost use Rattle.wt_flights.specs.declared.outcome.Outcome.TheVariants as outcome;
ghost use Rattle.wt_shards.specs.Landings.{book_at};
ghost use Rattle.wt_shards.specs.Place.{home_of};
ghost use Rattle.wt_shards.specs.Members.{members_of};
ghost use Rattle.wt_shards.specs.Told.{HasTold};
ghost use Rattle.wt_cache.specs.Gets.{IsSought, HasTriedIn, is_get_fault};
ghost use Rattle.wt_cache.specs.Loads.{AreRun, IsHandedTo, IsLoaded, MayReturn, value_in};
ghost use Rattle.wt_cache.specs.SharedGots.{IsOfShard, IsSoughtSharing, told_by};
ghost use Rattle.wt_cache.specs.Moves.{HasGotIn, IsLaterIn};

use crate::cache::LoadingCache;
use crate::got::{Got, How};
use crate::job_line::{Back, JobLine, Posted};
use crate::line_pass::LinePass;
use crate::loader::Loader;
use crate::loads::{Ran, value_in, value_of};
use crate::shared_got::SharedGot;
use std::sync::Wait;
use wt_core::Notices;
use wt_flights::{Lead, Outcome, Publish, Ticket};
use wt_keys::{CacheKey, Fault};
use wt_shards::{Books, Pass, Sharing, Sought, Value};

// The value of a load that this caller's seek opened, and the ticket that knows it as the load's
// outcome.
#[derive(Drop)]
pub(crate) struct Led<K, V> {
    pub(crate) value: V,
    // None if the landing had another outcome already, which never happens: no clause says so.
    pub(crate) ticket: Option<Ticket<K, V>>,
}

// The value of an outcome with the ticket that knows it, or the outcome's fault.
fn led_by<K: Copy, V: Drop>(
    outcome: Outcome<V>,
    ticket: Option<Ticket<K, V>>,
) -> Result<Led<K, V>, Fault>
    ensures told { told_by result ≡ value_in outcome }
    ensures ticket { IfOk result (λ led. led.ticket ≡ ticket) }
{
    match value_in(outcome) {
        Ok(value) => Ok(Led { value, ticket }),
        Err(fault) => Err(fault),
    }
}

impl<K: CacheKey, V: Value<K>, L: Loader<K, V> + Drop, B: Books> LoadingCache<K, V, L, B> {
    /// Returns the value of the key: the one that is there, or the one that is loaded, once for all
    /// callers that ask meanwhile.
    ///
    /// A caller whose seek opened the load runs it, or posts it to the line and waits; one whose
    /// seek joined it waits. An entry that is due is returned as it is, and loaded anew (Guava's
    /// refresh after write). A loaded value is stored as of the moment of the seek, and only if its
    /// key was not put, removed or forgotten since then.
    ///
    /// `now` is in milliseconds; one before the latest moment counts as the latest. First come the
    /// faults of the seek (`StepsSpent`, `TooManyFlights`, `NoMemory`), then that of this caller's
    /// landing. Last come those of the outcome (`LoadFailed`, `Abandoned`, `Mixed`, and `NoMemory`
    /// if this caller's share is refused). After the last two the seek stands. A failed refresh
    /// isn't reported. A hit takes memory for a share, a load for its row and its landing. Takes
    /// the lock of the key's shard for each step, and none while it loads or waits. Not promised:
    /// that the loader, and so the call, returns; that it is woken.
    #[tactic(auto, using(crate::proofs::Faults::of_seek, crate::proofs::Faults::of_land, crate::proofs::Faults::late_land, crate::proofs::Faults::of_late))]
    pub fn get<R: Wait>(
        &self,
        rt: &R,
        pass: &mut Pass<K, V, B>,
        key: K,
        now: u64,
        notices: &mut Notices<K, V>,
    ) -> Result<Got<V>, Fault>
        requires room { 2 * self.now.layout.config.entries ≤ notices.old.room }

        ensures answers { IfOk result (λ got. IsTrue (V.answers got.value key)) }
        ensures moved { IfOk result (HasGotIn K.word key self.now pass.old.counts pass.new.counts) }
        ensures later { IfOk result (IsLaterIn K.word key self.now pass.old.counts) }
        ensures sought { IfOk result (IsSought (members_of K.CacheKey V.Value)
            (MayReturn L.may_return) key now self.now pass.old pass.new notices.old notices.new) }

        ensures told { HasTold (2 * self.now.layout.config.entries) notices.old notices.new }
        ensures faults { IfErr result (λ fault. is_get_fault fault ≡ true) }
        // Either the seek was refused, for a cause of its own and with nothing done, or it stands.
        // Then this is why it brought nothing.
        ensures err { IfErr result (HasTriedIn (members_of K.CacheKey V.Value)
            (MayReturn L.may_return) key now self.now pass.old pass.new notices.old notices.new) }
    {
        let done = self.shards.seek(rt, pass, key, now, notices)?;
        let step = done.step;
        match done.reply {
            Sought::Hit(value) => {
                let how = How::Hit;
                Ok(Got { value, how, step })
            }
            Sought::HitLead(value, lead, _ticket) => {
                // A failed load isn't reported: the value that was there is the result.
                let _ = self.hand_on(rt, pass, lead, notices);
                let how = How::Refreshed;
                Ok(Got { value, how, step })
            }
            Sought::Join(ticket) => {
                let mut ticket = ticket;
                let value = value_of(rt, &mut ticket)?;
                let how = How::Joined;
                Ok(Got { value, how, step })
            }
            Sought::Lead(lead, ticket) => {
                let Led { value, ticket: _ } = self.load(rt, pass, lead, ticket, notices)?;
                let how = How::Loaded;
                Ok(Got { value, how, step })
            }
        }
    }

    /// Gets the key's value as `get` does, and also returns this caller's share of the load, if the
    /// value was loaded. By it, callers that share a load know that they got the same value: see
    /// [`SharedGot::shares_with`]. Its arms are those of `get`, which keeps no share: so a hit of `get`
    /// has none to drop.
    #[tactic(auto, using(crate::proofs::Faults::of_seek, crate::proofs::Faults::of_land, crate::proofs::Faults::late_land, crate::proofs::Faults::of_late))]
    pub fn get_sharing<R: Wait>(
        &self,
        rt: &R,
        pass: &mut Pass<K, V, B>,
        key: K,
        now: u64,
        notices: &mut Notices<K, V>,
    ) -> Result<SharedGot<K, V>, Fault>
        requires room { 2 * self.now.layout.config.entries ≤ notices.old.room }

        ensures answers { IfOk result (λ shared. IsTrue (V.answers shared.got.value key)) }
        ensures moved { IfOk result (λ shared. HasGotIn K.word key self.now pass.old.counts
            pass.new.counts shared.got) }
        ensures later { IfOk result (λ shared. IsLaterIn K.word key self.now pass.old.counts
            shared.got) }
        ensures sought { IfOk result (IsSoughtSharing (members_of K.CacheKey V.Value)
            (MayReturn L.may_return) key now self.now (book_at (home_of K.word key self.now.layout)
            B.S0.Naming.book B.S1.Naming.book B.S2.Naming.book B.S3.Naming.book)
            pass.old pass.new notices.old notices.new) }
        ensures of_shard { IfOk result (λ shared. IsOfShard (book_at (home_of K.word key self.now.layout)
            B.S0.Naming.book B.S1.Naming.book B.S2.Naming.book B.S3.Naming.book) shared.share) }

        ensures told { HasTold (2 * self.now.layout.config.entries) notices.old notices.new }
        ensures faults { IfErr result (λ fault. is_get_fault fault ≡ true) }
        // Either the seek was refused, for a cause of its own and with nothing done, or it stands.
        // Then this is why it brought nothing.
        ensures err { IfErr result (HasTriedIn (members_of K.CacheKey V.Value)
            (MayReturn L.may_return) key now self.now pass.old pass.new notices.old notices.new) }
    {
        let done = self.shards.seek_sharing(rt, pass, key, now, notices)?;
        let number = done.step;
        let Sharing { sought, landings } = done.reply;
        match sought {
            Sought::Hit(value) => Ok(SharedGot::found(value, How::Hit, number)),
            Sought::HitLead(value, lead, _ticket) => {
                // A failed load isn't reported: the value that was there is the result.
                let _ran = self.hand_on(rt, pass, lead, notices);
                Ok(SharedGot::found(value, How::Refreshed, number))
            }
            Sought::Join(ticket) => {
                let mut joined = ticket;
                let value = value_of(rt, &mut joined)?;
                Ok(SharedGot::loaded(value, How::Joined, number, Some(joined), landings))
            }
            Sought::Lead(lead, ticket) => {
                let Led { value, ticket } = self.load(rt, pass, lead, ticket, notices)?;
                Ok(SharedGot::loaded(value, How::Loaded, number, ticket, landings))
            }
        }
    }

    // Has a load run, and returns its value: the loader's if it ran here, else the ticket's
    // outcome.
    fn load<R: Wait>(
        &self,
        rt: &R,
        pass: &mut Pass<K, V, B>,
        lead: Lead<K, V>,
        ticket: Ticket<K, V>,
        notices: &mut Notices<K, V>,
    ) -> Result<Led<K, V>, Fault>
        requires room { self.now.layout.config.entries ≤ notices.old.room }
        requires ticket { ticket ≡ ticket_of lead None }
        ensures answers { IfOk result (λ led. IsTrue (V.answers led.value lead.key)) }
        ensures made { IsLoaded (members_of K.CacheKey V.Value) (MayReturn L.may_return) self.now lead
            pass.old pass.new notices.old notices.new (told_by result) }
        ensures told { IfOk result (λ led. IfSome led.ticket
            (λ t. t ≡ ticket_of lead (Some (outcome.Value led.value)))) }
    {
        let Some(ran) = self.hand_on(rt, pass, lead, notices) else {
            let mut ticket = ticket;
            let value = value_of(rt, &mut ticket)?;
            return Ok(Led {
                value,
                ticket: Some(ticket),
            });
        };
        let _ = ran.landed?;
        match ran.published {
            Publish::Already(outcome) => led_by(outcome, None),
            Publish::Published(ticket) => {
                let mut ticket = ticket;
                match ticket.poll()? {
                    Some(outcome) => led_by(outcome, Some(ticket)),
                    None => unreachable!(),
                }
            }
        }
    }

    // Has a load run: by a worker if the line takes it, else here, and then it returns how it
    // ended.
    //
    // The memory that a late poster needs is taken before the post, so that no refusal comes after
    // it.
    fn hand_on<R: Wait>(
        &self,
        rt: &R,
        pass: &mut Pass<K, V, B>,
        lead: Lead<K, V>,
        notices: &mut Notices<K, V>,
    ) -> Option<Ran<K, V>>
        requires room { self.now.layout.config.entries ≤ notices.old.room }
        ensures { IsHandedTo (members_of K.CacheKey V.Value) (MayReturn L.may_return) self.now lead
            pass.old pass.new notices.old notices.new result }
    {
        let Some(line) = &self.line else {
            return Some(self.run(rt, pass, lead, notices));
        };
        let Ok(mut line_pass) = line.pass(rt) else {
            return Some(self.run(rt, pass, lead, notices));
        };
        let Ok(mut aside) = Notices::new(line.alloc(), self.shards.entries() as usize) else {
            return Some(self.run(rt, pass, lead, notices));
        };
        match line.post(rt, &mut line_pass, lead) {
            Err(Back { lead, fault: _ }) => Some(self.run(rt, pass, lead, notices)),
            Ok(Posted::Line) => None,
            Ok(Posted::Late) => {
                self.drain(rt, pass, line, &mut line_pass, &mut aside);
                None
            }
        }
    }

    // Takes loads off the line and runs them, until there is none. Entries that leave the cache are
    // dropped.
    fn drain<R: Wait>(
        &self,
        rt: &R,
        pass: &mut Pass<K, V, B>,
        line: &JobLine<K, V>,
        line_pass: &mut LinePass<K, V>,
        aside: &mut Notices<K, V>,
    )
        requires room { self.now.layout.config.entries ≤ aside.old.room }
        requires none { aside.old.list ≡ [] }
        ensures ran { (leads : List (Leading K)) × AreRun (members_of K.CacheKey V.Value)
            (MayReturn L.may_return) self.now.layout aside.old leads pass.old pass.new }
    {
        for _ in rt.forever() {
            let Some(lead) = line.take(rt, line_pass) else {
                return;
            };
            let _ = self.run(rt, pass, lead, aside);
            aside.empty();
        }
        unreachable!()
    }
}
