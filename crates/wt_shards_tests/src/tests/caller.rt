// A caller of shards with what it holds, whose contracts tell nothing of the state: so each step of
// a test is checked without those before it. Its room is seen when it runs, and not proved.
ghost use Rattle.std.specs.Prelude.{◌≤◌, ◌*◌, ℕ, IsTrue};

use super::compare::holds;
use std::alloc::Global;
use std::marker::Model;
use std::process::Abort;
use std::sync::Wait;
use wt_core::{Call, Land, Notices, Reply, Stats};
use wt_flights::Lead;
use wt_keys::Fault;
use wt_shards::{Books, Pass, Shards, Sought, Value};

// The notices are those of its latest step alone. A lead stays until it is landed. Its values answer
// each key.
#[derive(Drop)]
pub struct Caller<V: Value<u64>, B: Books> {
    pass: Pass<u64, V, B>,
    notices: Notices<u64, V>,
    leads: Vec<Lead<u64, V>>,
}

impl<V: Value<u64>, B: Books> Model for Caller<V, B> {
    ghost use Rattle.std.specs.Prelude.{ℕ, IsTrue};

    ghost Value = { ℕ };

    ghost view = { λ c. 0 };

    ghost invariant = { λ c. (v : V) (k : ℕ) → IsTrue (V.answers v k) };
}

// The reply of a step, and its number; of a sweep, the number at the first shard.
pub type Answer<V> = Result<(Reply<V>, u64), Fault>;

impl<V: Value<u64>, B: Books> Caller<V, B> {
    pub fn new<R: Wait>(
        rt: &R,
        alloc: Global,
        shards: &Shards<u64, V, B>,
    ) -> Result<Caller<V, B>, Fault>
        requires answers { (v : V) (k : ℕ) → IsTrue (V.answers v k) }
    {
        let room = (shards.entries() as usize).saturating_mul(4);
        let notices = Notices::new(alloc, room)?;
        let leads = Vec::new(alloc);
        let pass = shards.pass(rt, alloc)?;
        Ok(Caller {
            pass,
            notices,
            leads,
        })
    }

    // Makes a call. A landing is of a lead that the caller has; without one it is no step.
    pub fn make<R: Wait + Abort>(
        &mut self,
        rt: &R,
        shards: &Shards<u64, V, B>,
        call: Call<u64, V>,
    ) -> Answer<V> {
        match call {
            Call::Look(key, now) => self.look(rt, shards, key, now),
            Call::Seek(key, now) => self.seek(rt, shards, key, now),
            Call::Land(id, key, what, now) => self.land(rt, shards, (id, key), what, now),
            Call::Put(key, value, now) => self.put(rt, shards, key, value, now),
            Call::DropKey(key, now) => self.drop_key(rt, shards, key, now),
            Call::Clear(now) => self.sweep(rt, shards, true, now),
            Call::Forget(key, now) => self.forget(rt, shards, key, now),
            Call::Clean(now) => self.sweep(rt, shards, false, now),
            // Only a shard by itself makes slides.
            Call::Slide { .. } => Err(Fault::Mixed),
        }
    }

    // The id of a load of the key that the caller leads.
    pub fn led(&self, key: u64) -> Option<u64> {
        for lead in &self.leads {
            if lead.key() == key {
                return Some(lead.id());
            }
        }
        None
    }

    // A load that the caller leads.
    pub fn any_led(&self) -> Option<(u64, u64)> {
        match self.leads.first() {
            Some(lead) => Some((lead.id(), lead.key())),
            None => None,
        }
    }

    // The steps and the hits at a shard.
    pub fn made(&self, shard: usize) -> (u64, u64) {
        (self.pass.steps(shard), self.pass.hits(shard))
    }

    // The numbers of all shards, which the pass then has seen.
    pub fn seen_stats<R: Wait>(&mut self, rt: &R, shards: &Shards<u64, V, B>) -> Stats {
        shards.seen_stats(rt, &mut self.pass)
    }

    pub fn into_pass(self) -> Pass<u64, V, B> {
        let Caller { pass, .. } = self;
        pass
    }

    fn look<R: Wait + Abort>(
        &mut self,
        rt: &R,
        shards: &Shards<u64, V, B>,
        key: u64,
        now: u64,
    ) -> Answer<V> {
        ready(rt, &mut self.notices, shards);
        let done = shards.look(rt, &mut self.pass, key, now, &mut self.notices)?;
        Ok((done.reply, done.step))
    }

    fn seek<R: Wait + Abort>(
        &mut self,
        rt: &R,
        shards: &Shards<u64, V, B>,
        key: u64,
        now: u64,
    ) -> Answer<V> {
        ready(rt, &mut self.notices, shards);
        let done = shards.seek(rt, &mut self.pass, key, now, &mut self.notices)?;
        Ok((keep(rt, &mut self.leads, done.reply), done.step))
    }

    fn land<R: Wait + Abort>(
        &mut self,
        rt: &R,
        shards: &Shards<u64, V, B>,
        (id, key): (u64, u64),
        what: Land<V>,
        now: u64,
    ) -> Answer<V> {
        ready(rt, &mut self.notices, shards);
        let Some(lead) = lead_of(&self.leads, id, key) else {
            return Ok((Reply::Gone, 0));
        };
        let done = shards.land(rt, &mut self.pass, lead, what, now, &mut self.notices)?;
        forget_lead(&mut self.leads, id, key);
        Ok((done.reply, done.step))
    }

    fn put<R: Wait + Abort>(
        &mut self,
        rt: &R,
        shards: &Shards<u64, V, B>,
        key: u64,
        value: V,
        now: u64,
    ) -> Answer<V> {
        ready(rt, &mut self.notices, shards);
        let done = shards.put(rt, &mut self.pass, key, value, now, &mut self.notices)?;
        Ok((Reply::Stored, done.step))
    }

    fn drop_key<R: Wait + Abort>(
        &mut self,
        rt: &R,
        shards: &Shards<u64, V, B>,
        key: u64,
        now: u64,
    ) -> Answer<V> {
        ready(rt, &mut self.notices, shards);
        let done = shards.drop_key(rt, &mut self.pass, key, now, &mut self.notices)?;
        Ok((Reply::Dropped(done.reply), done.step))
    }

    fn forget<R: Wait + Abort>(
        &mut self,
        rt: &R,
        shards: &Shards<u64, V, B>,
        key: u64,
        now: u64,
    ) -> Answer<V> {
        ready(rt, &mut self.notices, shards);
        let done = shards.forget(rt, &mut self.pass, key, now, &mut self.notices)?;
        Ok((Reply::Forgot(done.reply), done.step))
    }

    // A clear, or a clean.
    fn sweep<R: Wait + Abort>(
        &mut self,
        rt: &R,
        shards: &Shards<u64, V, B>,
        all: bool,
        now: u64,
    ) -> Answer<V> {
        ready(rt, &mut self.notices, shards);
        let reply = if all {
            shards.clear(rt, &mut self.pass, now, &mut self.notices)?;
            Reply::Cleared
        } else {
            shards.clean(rt, &mut self.pass, now, &mut self.notices)?;
            Reply::Cleaned
        };
        Ok((reply, self.pass.steps(0)))
    }
}

// Empties the list, and sees that it has room for a sweep of all shards.
fn ready<V: Value<u64>, B: Books>(
    rt: &impl Abort,
    notices: &mut Notices<u64, V>,
    shards: &Shards<u64, V, B>,
)
    ensures room { (shards.now.config.entries ≤ notices.new.room)
        × (shards.now.shards * shards.now.config.entries ≤ notices.new.room) }
{
    let (count, entries) = (shards.shards(), shards.entries() as usize);
    notices.empty();
    // Facts for the calls, which `holds` would not tell the prover.
    assert!(rt; count <= 4 && notices.has_room(count * entries));
    assert!(rt; notices.has_room(entries));
}

// Keeps the lead of a seek, and returns its reply.
fn keep<V: Value<u64>>(
    rt: &impl Abort,
    leads: &mut Vec<Lead<u64, V>>,
    sought: Sought<u64, V>,
) -> Reply<V> {
    match sought {
        Sought::Hit(value) => Reply::Hit(value),
        Sought::HitLead(value, lead, _ticket) => {
            let id = lead.id();
            holds(rt, "memory for a lead", leads.push(lead).is_ok());
            Reply::HitLead(value, id)
        }
        Sought::Join(ticket) => Reply::Join(ticket.id()),
        Sought::Lead(lead, _ticket) => {
            let id = lead.id();
            holds(rt, "memory for a lead", leads.push(lead).is_ok());
            Reply::Lead(id)
        }
    }
}

// The lead of a load.
fn lead_of<V: Value<u64>>(leads: &Vec<Lead<u64, V>>, id: u64, key: u64) -> Option<&Lead<u64, V>> {
    for lead in leads {
        if lead.id() == id && lead.key() == key {
            return Some(lead);
        }
    }
    None
}

// Drops the lead of a load.
fn forget_lead<V: Value<u64>>(leads: &mut Vec<Lead<u64, V>>, id: u64, key: u64) {
    for place in 0..leads.len() {
        if leads[place].id() == id && leads[place].key() == key {
            let _lead = leads.swap_remove(place);
            return;
        }
    }
}
