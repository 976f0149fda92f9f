// A shard: a cache that is audited.
//
//     core       the cache itself
//     lagging    its outline, as many steps ago as the ring holds
//     ring       the steps since then, the oldest first; a place for each open load is kept free
//     landings   where the outcome of each open load will stand, in the order of opening
//     books      the number of steps, and of hits among them, as sums of the callers' shares
//
// A step (`shard/stepping.rt`) first decides whether it is refused. Then it moves the oldest
// records over to the lagging copy, as few as it can. Then it makes the cache's step and records
// it. So every allocation comes before the cache changes.
ghost use Rattle.std.specs.Prelude.{◌≡◌, ◌+◌, ◌<◌, ◌≤◌, ◌==◌, None, Some, IsOk, IfOk, IfErr, OnOk, OnErr, IsOkUnless, MatchOption, Ok, Err, length, if◌then◌else◌};
ghost use Rattle.wt_keys.specs.declared.fault.Fault.TheVariants as fault;
ghost use Rattle.wt_core.specs.State.{config_fault, stats_of};
ghost use Rattle.wt_core.specs.Lawful.{AreSmall};
ghost use Rattle.wt_core.specs.Contract.{RepliesBy};
ghost use Rattle.wt_core.specs.Peeks.{look_reply};
ghost use Rattle.wt_core.specs.declared.calls.Call.TheVariants.{Look};
ghost use Rattle.wt_shards.specs.Peeks.{FoundAnswers};
ghost use Rattle.wt_shards.specs.Members.{members_by};
ghost use Rattle.wt_shards.specs.StateAt.{IsStateAt};
ghost use Rattle.wt_shards.specs.Totals.{total_of};
ghost use Rattle.wt_shards.specs.Counts.{no_steps, IsBlankOf};

mod calls;
mod opening;
mod seeking;
mod stepping;

use crate::closed::Closed;
use crate::explained::Explained;
use crate::kept::Kept;
use crate::ledgers::Ledgers;
use crate::shade::Shade;
use crate::shard_ledger::ShardLedger;
use crate::shares::Shares;
use crate::total::Total;
use circular_buffer::HeapCircularBuffer;
use std::alloc::Global;
use std::marker::Model;
use std::sync::ledger::{Blank, Ledger};
use wt_core::{Call, Config, Core, Notices, Stats, Weighs};
use wt_keys::{Answers, CacheKey, Fault, NoMemory, Share};
use wt_stripes::Exclusive;

/// An audited cache: at all times its outline is that of its lagging copy followed by the recorded
/// steps.
#[derive(Drop)]
pub struct Shard<K: CacheKey, V: Share + Weighs + Answers<K>, S: ShardLedger, H: Ledger> {
    // The fields that each step writes come first, beside the lock.
    pub(crate) ledgers: Exclusive<Ledgers<S, H>>,
    // How many shares of the books were given out.
    pub(crate) given: u32,
    pub(crate) ring: HeapCircularBuffer<Call<K, Shade>>,
    pub(crate) core: Core<K, V>,
    pub(crate) lagging: Core<K, Shade>,
    pub(crate) landings: Vec<Kept<K, V>>,
    // The notices of the lagging copy, which nobody reads.
    pub(crate) aside: Notices<K, Shade>,
    pub(crate) alloc: Global,
    // Its settings; never changes.
    pub(crate) config: Config,
}

impl<K: CacheKey, V: Share + Weighs + Answers<K>, S: ShardLedger, H: Ledger> Model
    for Shard<K, V, S, H> {
    ghost use Rattle.std.specs.Prelude.{◌≡◌, ◌+◌, ◌≤◌, length, vec_capacity};
    ghost use Rattle.wt_shards.specs.Audited.{Audited, IsAudited};
    ghost use Rattle.wt_shards.specs.Members.{members_by};

    ghost Value = { Audited K V };

    ghost view = { λ s. record {
      config = s.config;
      core = s.core;
      lagging = s.lagging;
      records = s.ring.items;
      landings = s.landings.items;
      given = s.given;
    } };

    ghost invariant = { λ s. IsAudited (members_by K.eq K.word V.measure V.answers)
        S.ShardLedger.place.shards S.ShardLedger.place.index (record {
          config = s.config;
          core = s.core;
          lagging = s.lagging;
          records = s.ring.items;
          landings = s.landings.items;
          given = s.given;
        })
        × (s.ring.capacity ≡ s.config.ring)
        × (s.config.flights ≤ vec_capacity s.landings)
        × (s.lagging.regions.caps.entries ≤ s.aside.room + length s.aside.list)
        × (s.ledgers.steps.total ≡ s.core.step)
        × (s.ledgers.hits.total ≡ s.core.counts.hits)
        × (s.ledgers.steps_left.parts + s.given ≡ 65536)
        × (s.ledgers.hits_left.parts + s.given ≡ 65536)
        × (s.ledgers.steps_left.amount ≡ 0)
        × (s.ledgers.hits_left.amount ≡ 0)
        × (s.config ≡ S.ShardLedger.place.config) };
}

impl<K: CacheKey, V: Share + Weighs + Answers<K>, S: ShardLedger, H: Ledger> Shard<K, V, S, H> {
    ghost use Rattle.wt_core.specs.Step.{step};
    ghost use Rattle.wt_shards.specs.Audited.{IsAudited, new_shard};

    /// Makes an empty shard, number `index` of `shards`.
    ///
    /// `BadConfig` as `Config::check` returns it, before memory is asked for. Takes memory for the
    /// cache and its copy, the ring, the landings and the copy's notices. O(entries + ring).
    pub fn new(
        alloc: Global,
        config: &Config,
        index: usize,
        shards: usize,
        steps: Blank,
        hits: Blank,
    ) -> Result<Shard<K, V, S, H>, Fault>
        requires here { (index ≡ S.ShardLedger.place.index)
            × (shards ≡ S.ShardLedger.place.shards) × (index < shards) }
        requires made_for { config.now ≡ S.ShardLedger.place.config }
        requires steps { IsBlankOf steps S.Ledger.name S.Ledger.parts }
        requires hits { IsBlankOf hits H.name H.parts }

        ensures ok { IfOk result (λ shard. shard ≡ new_shard config.now) }
        // The refusals of a configuration don't depend on memory.
        ensures refusal { MatchOption (config_fault config.now)
            (IsOkUnless result fault.NoMemory) (λ field. result ≡ Err (fault.BadConfig field)) }
    {
        if let Err(fault) = config.check() {
            return Err(fault);
        }
        let Ok((core, lagging)) = opening::caches(alloc, config) else {
            return Err(Fault::NoMemory);
        };
        let Ok((ring, landings, aside)) = opening::lists(alloc, config) else {
            return Err(Fault::NoMemory);
        };
        // For the prover: shows what holds of the cache at all times.
        let _stats = core.stats();
        let (steps, steps_left) = steps.open::<S>();
        let (hits, hits_left) = hits.open::<H>();
        Ok(Shard {
            alloc,
            config: *config,
            core,
            lagging,
            ring,
            landings,
            aside,
            given: 0,
            ledgers: Exclusive::new(Ledgers {
                steps,
                hits,
                steps_left,
                hits_left,
            }),
        })
    }

    /// Returns a caller's shares of the books, of nothing yet.
    ///
    /// `PassesSpent` comes exactly after 65,535 of them. Takes no memory. O(1).
    pub fn shares(&mut self) -> Result<Shares<S, H>, Fault>
        ensures state { OnOk result (self.new ≡ record self.old { given = self.old.given + 1 }) }
        ensures answer { IfOk result (λ shares. shares ≡ no_steps) }
        ensures refusal { MatchOption
            (if self.old.given == 65535 then Some fault.PassesSpent else None)
            (IsOk result) (λ f. result ≡ Err f) }
        ensures err { OnErr result (self.new ≡ self.old) }
    {
        if self.given >= 65535 {
            return Err(Fault::PassesSpent);
        }
        let ledgers = &mut self.ledgers;
        let of_steps = ledgers.value.steps_left.split_off(1, 0);
        let of_hits = ledgers.value.hits_left.split_off(1, 0);
        self.given += 1;
        Ok(Shares::of(of_steps, of_hits))
    }

    /// Returns how many steps were made. Takes no memory. O(1).
    pub fn steps(&self) -> u64
        ensures number { result ≡ self.now.core.step }
        // What holds of the shard at all times.
        ensures audited { IsAudited (members_by K.eq K.word V.measure V.answers)
            S.ShardLedger.place.shards S.ShardLedger.place.index self.now }
        ensures lawful { IsStateAt (members_by K.eq K.word V.measure V.answers) S.ShardLedger.place
            self.now.core }
    {
        self.core.step()
    }

    /// Returns a share of the value that a look of the key would hit at `now`, if it would hit. Is
    /// no step, and uses no entry.
    ///
    /// `now` is in milliseconds. Takes memory for that share alone, and none if a share is a copy.
    /// Expected O(1), unless an attacker chooses the keys (see `Seeded`).
    #[inline(always)]
    pub fn peek(&self, key: K, now: u64) -> Result<Option<V>, Fault>
        ensures answer { RepliesBy K.eq K.word V.measure look_reply (Look key now) self.now.core
            result }
        ensures answers { IfOk result (FoundAnswers V.answers key) }
        ensures memory { IfErr result (λ f. f ≡ fault.NoMemory) }
    {
        match self.core.peek(key, now) {
            Ok(found) => Ok(found),
            Err(fault) => Err(fault),
        }
    }

    /// Returns the numbers of the cache. Is no step, and takes no memory. O(1).
    pub fn stats(&self) -> Stats
        ensures numbers { result ≡ stats_of self.now.core }
        ensures small { AreSmall result }
    {
        self.core.stats()
    }

    /// Shows the lagging copy, and the steps that lead from it to the present. Takes no memory.
    /// O(1).
    pub fn explain(&self) -> Explained<'_, K>
        ensures shown { (result.lagging ≡ self.now.lagging) × (result.records ≡ self.now.records) }
        // What holds of the shard at all times.
        ensures audited { IsAudited (members_by K.eq K.word V.measure V.answers)
            S.ShardLedger.place.shards S.ShardLedger.place.index self.now }
    {
        Explained {
            copy: &self.lagging,
            ring: &self.ring,
        }
    }

    /// Ends the shard and closes its books. Takes no memory.
    pub(crate) fn close(self) -> Closed<S, H>
        ensures total { result ≡ total_of self.core }
        // What held of the shard at all times.
        ensures lawful { IsStateAt (members_by K.eq K.word V.measure V.answers) S.ShardLedger.place
            self.core }
        ensures sound { (result.stats.hits + result.stats.misses ≡ result.stats.lookups)
            × (result.stats.weight ≤ S.ShardLedger.place.config.bound) }
        ensures small { AreSmall result.stats }
    {
        let stats = self.stats();
        let made = self.steps();
        let Shard { ledgers, .. } = self;
        let Ledgers { steps, hits, .. } = ledgers.into_inner();
        Closed::of(
            Total {
                steps: made,
                hits: stats.hits,
                stats,
            },
            steps,
            hits,
        )
    }
}
