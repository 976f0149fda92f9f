// How a load is run, and how its outcome is waited for.
//
//   lead ─► load ─► land at the lead's moment ─► publish ─► ring
//
// One function does it, for a caller without a line, a poster that came too late and a worker. A
// load is landed before it is published, and both for each lead once: landing borrows the lead,
// publishing takes it away. So a caller that gets a value that was stored finds it in the cache,
// unless it has left since.
ghost use Rattle.std.specs.Prelude.{◌≡◌, ◌≤◌, true, IsTrue, IfOk, IfErr, IsSomeAnd};
ghost use Rattle.wt_flights.specs.Outcomes.{IsSameTicket, outcome_answers};
ghost use Rattle.wt_flights.specs.Published.{Publishes};
ghost use Rattle.wt_shards.specs.Asked.{LandAnswers};
ghost use Rattle.wt_shards.specs.Members.{members_of};
ghost use Rattle.wt_core.specs.declared.calls.Land.{Land as Landing};
ghost use Rattle.wt_cache.specs.Loads.{IsGivenUp, IsLandCall, IsRun, IsTold, LandsAs, MayReturn, is_outcome_fault, value_in};

use crate::cache::LoadingCache;
use crate::loader::Loader;
use std::sync::Wait;
use wt_core::{Land, Notices, Reply};
use wt_flights::{Lead, Outcome, Publish, Ticket};
use wt_keys::{Answers, CacheKey, Fault, Share};
use wt_shards::{Books, Done, Pass, Value};

/// How a load ended, for the caller or worker that ran it.
#[derive(Drop)]
pub(crate) struct Ran<K, V> {
    /// Whether the loader returned an error.
    pub failed: bool,
    /// The result of the landing: its step, or the fault that refused it.
    pub landed: Result<Done<Reply<V>>, Fault>,
    /// The result of the publishing: the ticket that knows the outcome.
    pub published: Publish<K, V>,
}

// Publishes the outcome, and wakes the callers that wait for it.
fn announce<K: CacheKey, V: Share + Answers<K>, R: Wait>(
    rt: &R,
    lead: Lead<K, V>,
    outcome: Outcome<V>,
) -> Publish<K, V>
    requires answers { IsTrue (outcome_answers V.answers outcome lead.key) }
    ensures { Publishes lead outcome result }
{
    let published = lead.publish(outcome);
    if let Publish::Published(ticket) = &published {
        ticket.ring(rt);
    }
    published
}

// Waits for the outcome of a load, and returns a share of its value, or the outcome's fault.
pub(crate) fn value_of<K: CacheKey, V: Share + Answers<K>, R: Wait>(
    rt: &R,
    ticket: &mut Ticket<K, V>,
) -> Result<V, Fault>
    ensures same { IsSameTicket ticket.old ticket.new }
    ensures told { IsSomeAnd ticket.new.known (IsTold V.answers ticket.old.key result) }
    ensures answers { IfOk result (λ value. IsTrue (V.answers value ticket.old.key)) }
    ensures faults { IfErr result (λ fault. is_outcome_fault fault ≡ true) }
{
    value_in(ticket.wait(rt)?)
}

// The value of an outcome, or its fault.
pub(crate) fn value_in<V>(outcome: Outcome<V>) -> Result<V, Fault>
    ensures { result ≡ value_in outcome }
{
    match outcome {
        Outcome::Value(value) => Ok(value),
        Outcome::Failed(code) => Err(Fault::LoadFailed { code }),
        Outcome::Abandoned => Err(Fault::Abandoned),
    }
}

impl<K: CacheKey, V: Value<K>, L: Loader<K, V> + Drop, B: Books> LoadingCache<K, V, L, B> {
    // Lands a load at its moment.
    fn land<R: Wait>(
        &self,
        rt: &R,
        pass: &mut Pass<K, V, B>,
        lead: &Lead<K, V>,
        what: Land<V>,
        notices: &mut Notices<K, V>,
    ) -> Result<Done<Reply<V>>, Fault>
        requires room { self.now.layout.config.entries ≤ notices.old.room }
        requires answers { LandAnswers V.answers lead.now.key what }
        ensures made { IsLandCall (members_of K.CacheKey V.Value) self.now.layout lead.now what
            pass.old pass.new notices.old notices.new result }
    {
        let moment = lead.moment();
        self.shards.land(rt, pass, lead, what, moment, notices)
    }

    // Lands a load with its value: kept, or loose if the share or the landing found no memory.
    fn land_value<R: Wait>(
        &self,
        rt: &R,
        pass: &mut Pass<K, V, B>,
        lead: &Lead<K, V>,
        value: &V,
        notices: &mut Notices<K, V>,
    ) -> Result<Done<Reply<V>>, Fault>
        requires room { self.now.layout.config.entries ≤ notices.old.room }
        requires answers { IsTrue (V.answers value.now lead.now.key) }
        ensures made { (what : Landing V) × LandsAs (Ok value.now) what
            × IsLandCall (members_of K.CacheKey V.Value) self.now.layout lead.now what pass.old
            pass.new notices.old notices.new result }
    {
        let Ok(kept) = value.share() else {
            return self.land(rt, pass, lead, Land::Loose, notices);
        };
        match self.land(rt, pass, lead, Land::Keep(kept), notices) {
            Ok(done) => Ok(done),
            Err(Fault::NoMemory) => self.land(rt, pass, lead, Land::Loose, notices),
            Err(fault) => Err(fault),
        }
    }

    // Runs a load: loads, lands, publishes and rings, the last two whatever became of the landing.
    pub(crate) fn run<R: Wait>(
        &self,
        rt: &R,
        pass: &mut Pass<K, V, B>,
        lead: Lead<K, V>,
        notices: &mut Notices<K, V>,
    ) -> Ran<K, V>
        requires room { self.now.layout.config.entries ≤ notices.old.room }
        ensures made { IsRun (members_of K.CacheKey V.Value) (MayReturn L.may_return) self.now.layout
            lead pass.old pass.new notices.old notices.new result }
    {
        let key = lead.key();
        match self.loader.load(&key) {
            Ok(value) => {
                let landed = self.land_value(rt, pass, &lead, &value, notices);
                let published = announce(rt, lead, Outcome::Value(value));
                let failed = false;
                Ran {
                    failed,
                    landed,
                    published,
                }
            }
            Err(code) => {
                let landed = self.land(rt, pass, &lead, Land::Failed, notices);
                let published = announce(rt, lead, Outcome::Failed(code));
                let failed = true;
                Ran {
                    failed,
                    landed,
                    published,
                }
            }
        }
    }

    /// Gives up a load: the callers that wait for it get `Abandoned`, and no entry changes, but
    /// that the key's own leaves if it has expired.
    ///
    /// The lead is one that a seek of the shards returned. If the landing is refused, the outcome
    /// is published and rung all the same; `NoMemory` and `StepsSpent` come only if the load is no
    /// longer open. Takes the lock of the key's shard, then that of the load's bell.
    pub fn abandon<R: Wait>(
        &self,
        rt: &R,
        pass: &mut Pass<K, V, B>,
        lead: Lead<K, V>,
        notices: &mut Notices<K, V>,
    ) -> Result<(), Fault>
        requires room { self.now.layout.config.entries ≤ notices.old.room }
        ensures made { IsGivenUp (members_of K.CacheKey V.Value) self.now.layout lead pass.old pass.new
            notices.old notices.new result }
    {
        let landed = self.land(rt, pass, &lead, Land::Failed, notices);
        let _ = announce(rt, lead, Outcome::Abandoned);
        match landed {
            Ok(_) => Ok(()),
            Err(fault) => Err(fault),
        }
    }
}
