// The end of a load: all that share it read its outcome, which goes with the last of them.
use super::compare::same;
use super::run::Run;
use super::scene::{Scene, plays};
use super::{answered, config};
use std::alloc::Global;
use std::cell::Cell;
use std::marker::Model;
use std::process::Abort;
use std::rc::Rc;
use std::test::Fail;
use wt_core::{Config, Land};
use wt_flights::{Lead, Outcome, Publish, Ticket};
use wt_keys::Fault;
use wt_shards::{Names, Sought};
use wt_tests::{Do, Fussy, Loaded, PlainReply, call_of, counter, light};

// The leads and tickets that seeks answered, in this order.
#[derive(Drop)]
struct Loads {
    leads: Vec<Lead<u64, Loaded>>,
    tickets: Vec<Ticket<u64, Loaded>>,
}

// Closed, so that a caller's proofs don't see the leads and tickets.
impl Model for Loads {
    ghost use Rattle.std.specs.Prelude.{ℕ};

    ghost Value = { ℕ };

    ghost view = { λ l. 0 };
}

impl Loads {
    fn new(alloc: Global) -> Loads {
        Loads {
            leads: Vec::new(alloc),
            tickets: Vec::new(alloc),
        }
    }

    // Keeps what a seek answered, and tells of it: the id, the key and the moment of a lead, the id
    // and the key of a join.
    fn keep(&mut self, sought: Sought<u64, Loaded>) -> Result<Effect, Fault> {
        match sought {
            Sought::Lead(lead, ticket) => {
                let effect = Effect::Lead(lead.id(), lead.key(), lead.moment());
                self.leads.push(lead)?;
                self.tickets.push(ticket)?;
                Ok(effect)
            }
            Sought::Join(ticket) => {
                let effect = Effect::Join(ticket.id(), ticket.key());
                self.tickets.push(ticket)?;
                Ok(effect)
            }
            Sought::Hit(_) | Sought::HitLead(_, _, _) => Ok(Effect::Other),
        }
    }

    // Publishes at the latest lead, whose ticket is kept too.
    fn publish(&mut self, rt: &impl Abort, value: Loaded) -> Result<(), Fault> {
        if let Some(lead) = self.leads.pop() {
            self.tickets.push(publish(rt, lead, value))?;
        }
        Ok(())
    }

    // The value that the ticket of this place knows.
    fn value(&mut self, rt: &impl Abort, place: usize) -> Result<Option<Loaded>, Fault> {
        match self.tickets.get_mut(place) {
            Some(ticket) => value_of(rt, ticket),
            None => Ok(None),
        }
    }
}

// A call, and its expected result.
#[derive(Clone, Copy)]
enum Act {
    Seek,
    Step(Do),
    Publish(Loaded),
    // By the ticket of this place.
    Poll(usize),
}

#[derive(Clone, Copy, Debug, PartialEq, Eq)]
enum Effect {
    Lead(u64, u64, u64),
    Join(u64, u64),
    Other,
    Step(PlainReply),
    Published,
    Nothing,
    Value(Loaded),
}

fn effect_of<N: Names>(
    rt: &impl Abort,
    run: &mut Run<Loaded, N>,
    loads: &mut Loads,
    (act, key, now): (Act, u64, u64),
) -> Result<Effect, Fault> {
    match act {
        Act::Seek => {
            let sought = run.seek(key, now)?;
            loads.keep(sought)
        }
        Act::Step(act) => Ok(Effect::Step(answered(run.make(call_of(act, key, now))))),
        Act::Publish(value) => {
            loads.publish(rt, value)?;
            Ok(Effect::Published)
        }
        Act::Poll(place) => match loads.value(rt, place)? {
            Some(value) => Ok(Effect::Value(value)),
            None => Ok(Effect::Nothing),
        },
    }
}

// The value that a ticket knows.
fn value_of(rt: &impl Abort, ticket: &mut Ticket<u64, Loaded>) -> Result<Option<Loaded>, Fault> {
    match ticket.poll()? {
        Some(Outcome::Value(value)) => Ok(Some(value)),
        Some(_) => panic!(rt; "a value was to be told"),
        None => Ok(None),
    }
}

fn publish(rt: &impl Abort, lead: Lead<u64, Loaded>, value: Loaded) -> Ticket<u64, Loaded> {
    match lead.publish(Outcome::Value(value)) {
        Publish::Published(ticket) => ticket,
        Publish::Already(_) => panic!(rt; "there was an outcome already"),
    }
}

// Each row has an act on key 7, its moment, and what `effect_of` is to return.
fn rows() -> [(Act, u64, Effect); 13] {
    let value = light(5);
    let (keep, drop_key) = (Act::Step(Do::Keep(1, value)), Act::Step(Do::DropKey));
    [
        (Act::Seek, 3, Effect::Lead(1, 7, 3)),
        (Act::Seek, 4, Effect::Join(1, 7)),
        (Act::Poll(1), 4, Effect::Nothing),
        (keep, 3, Effect::Step(PlainReply::Kept(2))),
        // The landing is no publish.
        (Act::Poll(1), 4, Effect::Nothing),
        (Act::Publish(value), 4, Effect::Published),
        (Act::Poll(0), 4, Effect::Value(value)),
        (Act::Poll(1), 4, Effect::Value(value)),
        (Act::Poll(2), 4, Effect::Value(value)),
        // A later load has an outcome of its own.
        (drop_key, 5, Effect::Step(PlainReply::Dropped(true))),
        (Act::Seek, 6, Effect::Lead(2, 7, 6)),
        (Act::Poll(3), 6, Effect::Nothing),
        (Act::Poll(1), 6, Effect::Value(value)),
    ]
}

#[derive(Drop)]
struct Shared {}

impl Scene<Loaded> for Shared {
    fn play<N: Names, R: Abort>(
        &self,
        rt: &R,
        alloc: Global,
        _limits: &Config,
        run: &mut Run<Loaded, N>,
    ) -> Result<(), Fault> {
        let mut loads = Loads::new(alloc);
        for (act, now, effect) in rows() {
            let heard = effect_of(rt, run, &mut loads, (act, 7, now));
            same(rt, "what a row tells", heard, Ok(effect));
        }
        Ok(())
    }
}

#[test]
fn a_join_reads_what_the_lead_publishes(rt: HostRuntime) -> Result<(), Fail> {
    plays(&rt, rt.alloc(), &config(1000), &Shared {})?;
    Ok(())
}

// More sharers of a load than any limit of a cache.
const MANY: u64 = 100_001;

// The first seek opens the load, the others join it, and all keep their tickets until it lands.
fn join_many<N: Names>(
    rt: &impl Abort,
    run: &mut Run<Loaded, N>,
    loads: &mut Loads,
) -> Result<(), Fault> {
    let opened = effect_of(rt, run, loads, (Act::Seek, 7, 3))?;
    same(rt, "the first seek", opened, Effect::Lead(1, 7, 3));
    for _ in 1..MANY {
        let joined = effect_of(rt, run, loads, (Act::Seek, 7, 3))?;
        same(rt, "a later seek", joined, Effect::Join(1, 7));
    }
    let landing = (Act::Step(Do::Keep(1, light(5))), 7, 3);
    let landed = effect_of(rt, run, loads, landing)?;
    same(
        rt,
        "the landing",
        landed,
        Effect::Step(PlainReply::Kept(MANY)),
    );
    Ok(())
}

#[derive(Drop)]
struct ByMany {}

impl Scene<Loaded> for ByMany {
    fn play<N: Names, R: Abort>(
        &self,
        rt: &R,
        alloc: Global,
        _limits: &Config,
        run: &mut Run<Loaded, N>,
    ) -> Result<(), Fault> {
        join_many(rt, run, &mut Loads::new(alloc))
    }
}

#[test]
fn a_load_may_have_many_sharers_at_once(rt: HostRuntime) -> Result<(), Fail> {
    plays(&rt, rt.alloc(), &config(1000), &ByMany {})?;
    Ok(())
}

// Opens a load of key 7, and drops the ticket.
fn opened<N: Names>(run: &mut Run<Fussy, N>) -> Result<Lead<u64, Fussy>, Fault> {
    match run.seek(7, 3)? {
        Sought::Lead(lead, _ticket) => Ok(lead),
        _ => Err(Fault::Mixed),
    }
}

// Joins the load of key 7, and drops the ticket. Returns whether it was open.
fn joins<N: Names>(run: &mut Run<Fussy, N>) -> Result<bool, Fault> {
    Ok(matches!(run.seek(7, 4)?, Sought::Join(_)))
}

// Publishes the value of a load, and drops the ticket. Returns whether it was the first outcome.
fn publishes(lead: Lead<u64, Fussy>, value: Fussy) -> bool {
    matches!(lead.publish(Outcome::Value(value)), Publish::Published(_))
}

// A load with one joiner, whose value is published. Returns whether both were so, and how many own
// the value once all that share the load are dropped, before it has landed and after.
fn owners<N: Names>(
    run: &mut Run<Fussy, N>,
    owned: &Rc<Cell<u32>>,
) -> Result<(bool, usize, usize), Fault> {
    let value = Fussy::new(5, owned.clone()?);
    let lead = opened(run)?;
    let id = lead.id();
    let joined = joins(run)?;
    let published = publishes(lead, value);
    let before = Rc::strong_count(owned);
    run.land(id, 7, Land::Loose, 5)?;
    Ok((joined && published, before, Rc::strong_count(owned)))
}

#[derive(Drop)]
struct Dropped {}

impl Scene<Fussy> for Dropped {
    fn play<N: Names, R: Abort>(
        &self,
        rt: &R,
        alloc: Global,
        _limits: &Config,
        run: &mut Run<Fussy, N>,
    ) -> Result<(), Fault> {
        let owned = counter(alloc)?;
        same(
            rt,
            "owners before the landing and after it",
            owners(run, &owned),
            Ok((true, 2, 1)),
        );
        Ok(())
    }
}

#[test]
fn a_value_goes_with_the_last_who_shares_its_load(rt: HostRuntime) -> Result<(), Fail> {
    plays(&rt, rt.alloc(), &config(1000), &Dropped {})?;
    Ok(())
}
