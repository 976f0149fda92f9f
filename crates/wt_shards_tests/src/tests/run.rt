// A shard of one with its caller, whose contracts tell nothing of the state: so each step of a test
// is checked without those before it.
ghost use Rattle.std.specs.Prelude.{◌≡◌, ℕ, IsTrue};
ghost use Rattle.wt_shards.specs.Opening.{AreBlanksOf};

use super::again;
use std::alloc::Global;
use std::marker::Model;
use wt_core::{Call, Config, Core, Land, Notice, Notices, Region, Reply, Stats, Weighs};
use wt_keys::{Answers, Fault, NoMemory, Share, shard_of};
use wt_shards::{Blanks, Hits, Names, Noted, Shard, Shares, Sought, Steps};

// The notices are those of its latest step alone. Its values answer each key.
#[derive(Drop)]
pub struct Run<V: Share + Weighs + Answers<u64>, N: Names> {
    shard: Shard<u64, V, Steps<N, 0>, Hits<N, 0>>,
    shares: Shares<Steps<N, 0>, Hits<N, 0>>,
    notices: Notices<u64, V>,
}

impl<V: Share + Weighs + Answers<u64>, N: Names> Model for Run<V, N> {
    ghost use Rattle.std.specs.Prelude.{◌≡◌, ℕ, ◌+◌, ◌≤◌, IsTrue, length};

    ghost Value = { ℕ };

    ghost view = { λ r. 0 };

    ghost invariant = { λ r. (N.layout.shards ≡ 1)
        × ((v : V) (k : ℕ) → IsTrue (V.answers v k))
        × (N.layout.config.entries ≤ r.notices.room + length r.notices.list) };
}

// A shard, and its caller's shares.
type Opened<V, N> = (
    Shard<u64, V, Steps<N, 0>, Hits<N, 0>>,
    Shares<Steps<N, 0>, Hits<N, 0>>,
);

fn opened<V: Share + Weighs + Answers<u64>, N: Names>(
    alloc: Global,
    config: &Config,
    blanks: Blanks<u64, V>,
) -> Result<Opened<V, N>, Fault>
    requires layout { N.layout ≡ record { shards = 1; config = config.now } }
    requires blanks { AreBlanksOf N.name N.book blanks }
{
    let Blanks { s0, h0, .. } = blanks;
    let mut shard = Shard::new(alloc, config, 0, 1, s0, h0)?;
    let shares = shard.shares()?;
    Ok((shard, shares))
}

impl<V: Share + Weighs + Answers<u64>, N: Names> Run<V, N> {
    pub fn new(alloc: Global, config: &Config, blanks: Blanks<u64, V>) -> Result<Run<V, N>, Fault>
        requires layout { N.layout ≡ record { shards = 1; config = config.now } }
        requires blanks { AreBlanksOf N.name N.book blanks }
        requires answers { (v : V) (k : ℕ) → IsTrue (V.answers v k) }
    {
        let notices = Notices::new(alloc, config.entries as usize)?;
        let (shard, shares) = opened(alloc, config, blanks)?;
        Ok(Run {
            shard,
            shares,
            notices,
        })
    }

    // One method a call.

    pub fn look(&mut self, key: u64, now: u64) -> Result<Reply<V>, Fault> {
        // Each key is the only shard's.
        let _home = shard_of(key, 1);
        self.notices.empty();
        self.shard
            .look(&mut self.shares, key, now, &mut self.notices)
    }

    pub fn seek(&mut self, key: u64, now: u64) -> Result<Sought<u64, V>, Fault> {
        let _home = shard_of(key, 1);
        self.notices.empty();
        self.shard
            .seek(&mut self.shares, key, now, &mut self.notices)
    }

    pub fn land(&mut self, id: u64, key: u64, what: Land<V>, now: u64) -> Result<Reply<V>, Fault> {
        let _home = shard_of(key, 1);
        self.notices.empty();
        self.shard
            .land(&mut self.shares, id, key, what, now, &mut self.notices)
    }

    pub fn put(&mut self, key: u64, value: V, now: u64) -> Result<(), Fault> {
        let _home = shard_of(key, 1);
        self.notices.empty();
        self.shard
            .put(&mut self.shares, key, value, now, &mut self.notices)
    }

    pub fn drop_key(&mut self, key: u64, now: u64) -> Result<bool, Fault> {
        let _home = shard_of(key, 1);
        self.notices.empty();
        self.shard
            .drop_key(&mut self.shares, key, now, &mut self.notices)
    }

    pub fn clear(&mut self, now: u64) -> Result<(), Fault> {
        self.notices.empty();
        self.shard.clear(&mut self.shares, now, &mut self.notices)
    }

    pub fn forget(&mut self, key: u64, now: u64) -> Result<bool, Fault> {
        let _home = shard_of(key, 1);
        self.notices.empty();
        self.shard
            .forget(&mut self.shares, key, now, &mut self.notices)
    }

    pub fn clean(&mut self, now: u64) -> Result<(), Fault> {
        self.notices.empty();
        self.shard.clean(&mut self.shares, now, &mut self.notices)
    }

    pub fn slide(&mut self, wider: bool, now: u64) -> Result<bool, Fault> {
        self.notices.empty();
        self.shard
            .slide(&mut self.shares, wider, now, &mut self.notices)
    }

    // A call as data. The lead and the ticket of a seek are dropped.
    pub fn make(&mut self, call: Call<u64, V>) -> Result<Reply<V>, Fault> {
        match call {
            Call::Look(key, now) => self.look(key, now),
            Call::Seek(key, now) => Ok(reply_of(self.seek(key, now)?)),
            Call::Land(id, key, what, now) => self.land(id, key, what, now),
            Call::Put(key, value, now) => {
                self.put(key, value, now)?;
                Ok(Reply::Stored)
            }
            Call::DropKey(key, now) => Ok(Reply::Dropped(self.drop_key(key, now)?)),
            Call::Clear(now) => {
                self.clear(now)?;
                Ok(Reply::Cleared)
            }
            Call::Forget(key, now) => Ok(Reply::Forgot(self.forget(key, now)?)),
            Call::Clean(now) => {
                self.clean(now)?;
                Ok(Reply::Cleaned)
            }
            Call::Slide { wider, now } => Ok(Reply::Slid(self.slide(wider, now)?)),
        }
    }

    // The fault by which further shares of the books are refused.
    pub fn spent(&mut self) -> Option<Fault> {
        self.shard.shares().err()
    }

    pub fn forget_notices(&mut self) {
        self.notices.empty();
    }

    // Its visible state.

    pub fn notices(&self) -> &[Notice<u64, V>] {
        self.notices.list()
    }

    pub fn stats(&self) -> Stats {
        self.shard.stats()
    }

    pub fn steps(&self) -> u64 {
        self.shard.steps()
    }

    // The caller's steps and hits.
    pub fn counts(&self) -> (u64, u64) {
        (self.shares.steps(), self.shares.hits())
    }

    // How many records were dropped, and how many are kept.
    pub fn records(&self) -> (u64, usize) {
        let shown = self.shard.explain();
        let mut kept = 0;
        for i in 0..70_000 {
            if shown.noted(i).is_some() {
                kept = i + 1;
            } else {
                break;
            }
        }
        (shown.dropped(), kept)
    }

    // The record of this place, the oldest first.
    pub fn noted(&self, place: usize) -> Option<Noted<u64>> {
        let shown = self.shard.explain();
        match shown.noted(place) {
            Some(call) => Some(again(call)),
            None => None,
        }
    }

    // The numbers of the lagging copy.
    pub fn lagging(&self) -> Stats {
        self.shard.explain().lagging().stats()
    }

    // The lagging copy's keys.
    pub fn lagging_keys(&self, alloc: Global) -> Result<[Vec<u64>; 3], NoMemory> {
        keys_of(alloc, self.shard.explain().lagging())
    }
}

// The keys of the three regions.
pub fn keys_of<V: Share + Weighs>(
    alloc: Global,
    core: &Core<u64, V>,
) -> Result<[Vec<u64>; 3], NoMemory> {
    let window = core.order(alloc, Region::Window)?;
    let probation = core.order(alloc, Region::Probation)?;
    let protected = core.order(alloc, Region::Protected)?;
    Ok([window, probation, protected])
}

fn reply_of<V: Drop>(sought: Sought<u64, V>) -> Reply<V> {
    match sought {
        Sought::Hit(value) => Reply::Hit(value),
        Sought::HitLead(value, lead, _ticket) => Reply::HitLead(value, lead.id()),
        Sought::Join(ticket) => Reply::Join(ticket.id()),
        Sought::Lead(lead, _ticket) => Reply::Lead(lead.id()),
    }
}
