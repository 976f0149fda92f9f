// A caller of a shared cache: what it has seen of the one history, and its calls.
ghost use Rattle.std.specs.Prelude.{◌≡◌, [], IfOk, IsSome, OnErr};
ghost use mathlib.Core.List.{IsPrefix};
ghost use Rattle.wt_core.specs.State.{config_fault, opening};
ghost use Rattle.wt_regions.specs.Lawful.{FailsByField};
ghost use Rattle.wt_shared.specs.Runs.{IsRun};
ghost use Rattle.wt_shared.specs.Shared.{Adds, Becomes, IsKept};

mod numbers;
mod peek;

use crate::kept::Kept;
use crate::known::Known;
use crate::slot::{Held, give, take};
use crate::unmade::Unmade;
use counted_slot::Counted;
use std::alloc::Global;
use std::marker::Model;
use std::mem;
use std::sync::Arc;
use wt_core::{
    Call, Config, Core, Reply, landed_once, one_current_load, sharers_are_the_lead_and_joins,
    stale_results_are_not_stored,
};
use wt_history::Log;
use wt_keys::{CacheKey, Fault, NoMemory, Share};
use wt_regions::{Notice, Notices, Weighs};
use wt_shards::{own_put_is_read, served_values_are_young};

/// One caller of a shared cache, for one thread at a time.
#[derive(Drop)]
pub struct Caller<K: CacheKey, V: Share + Weighs> {
    slot: Arc<Counted<Option<Held<K, V>>>, Global>,
    known: Known<K, V>,
    // The number of its latest call in the history, from 1; 0 before the first.
    number: u64,
    // What left in the latest call.
    notices: Notices<K, V>,
}

impl<K: CacheKey, V: Share + Weighs> Model for Caller<K, V> {
    ghost use Rattle.std.specs.Prelude.{◌≡◌, ◌≤◌, ◌+◌, length};
    ghost use Rattle.std.specs.Arc.{arc_value};
    ghost use Rattle.wt_shared.specs.Shared.{View};

    ghost Value = { View K V };

    ghost view = { λ c. record { known = c.known; number = c.number; left = c.notices.list } };

    ghost invariant = { λ c. ((arc_value c.slot).config ≡ c.known.config)
        × ((arc_value c.slot).seen.book ≡ c.known.seen.book)
        × (c.known.config.entries ≤ c.notices.room + length c.notices.list) };
}

// Makes the call at the end of the history.
#[inline(always)]
fn step<K: CacheKey, V: Share + Weighs>(
    kept: &mut Kept<K, V>,
    known: &Known<K, V>,
    call: Call<K, V>,
) -> Result<Reply<V>, Unmade>
    requires lawful { IsKept K.eq K.word V.measure known.now kept.old }
    ensures made { Adds K.eq K.word V.measure V.Share.is_copied result known.now call kept.old kept.new }
{
    let at = kept.count;
    if at >= 1 << 60 {
        return Err(Unmade::Lost);
    }
    let asked = kept.log.ask(&call);
    kept.notices.empty();
    // For the prover: shows `lawful`.
    let _stats = kept.core.stats();
    match kept.core.take(call, &mut kept.notices) {
        Ok(reply) => {
            if !kept.log.write(&known.seen, asked, at) {
                return Err(Unmade::Lost);
            }
            kept.count = at + 1;
            Ok(reply)
        }
        Err(_refused) => {
            if !kept.log.cover(&known.seen, asked, at) {
                return Err(Unmade::Lost);
            }
            Err(Unmade::NoMemory)
        }
    }
}

impl<K: CacheKey, V: Share + Weighs> Caller<K, V> {
    /// Makes an empty cache, and returns its first caller.
    ///
    /// `BadConfig` as `Config::check` returns it, before memory is asked for. Takes memory for the
    /// cache and twice for as many notices as it may hold entries. O(entries).
    #[tactic(auto, using(crate::proofs::Refusals::fails_made))]
    pub fn open(alloc: Global, config: &Config) -> Result<Caller<K, V>, Fault>
        ensures seen { IfOk result (λ c. c.known.seen.entries ≡ []) }
        ensures config { IfOk result (λ c. c.known.config ≡ config.now) }
        ensures notices { IfOk result (λ c. c.left ≡ []) }
        ensures number { IfOk result (λ c. c.number ≡ 0) }
        ensures refusal { FailsByField (config_fault config.now) result }
    {
        match Core::new(alloc, config) {
            Ok(core) => match Caller::of(alloc, config, core) {
                Ok(caller) => Ok(caller),
                Err(_refused) => Err(Fault::NoMemory),
            },
            Err(fault) => Err(fault),
        }
    }

    // The first caller of this cache, which is empty.
    fn of(alloc: Global, config: &Config, core: Core<K, V>) -> Result<Caller<K, V>, NoMemory>
        requires made_for { core ≡ opening config.now }
        ensures seen { IfOk result (λ c. c.known.seen.entries ≡ []) }
        ensures config { IfOk result (λ c. c.known.config ≡ config.now) }
        ensures notices { IfOk result (λ c. c.left ≡ []) }
        ensures number { IfOk result (λ c. c.number ≡ 0) }
    {
        let own = Notices::new(alloc, config.entries as usize)?;
        let notices = Notices::new(alloc, config.entries as usize)?;
        let log = Log::new();
        let known = Known {
            config: *config,
            seen: log.seen(),
        };
        let kept = Kept {
            core,
            notices: own,
            count: 0,
            log,
        };
        let Ok(kept) = Box::new(alloc, kept) else {
            return Err(NoMemory);
        };
        let Ok(slot) = Arc::new(alloc, Counted::new(Some(Held { kept }), &known)) else {
            return Err(NoMemory);
        };
        Ok(Caller {
            slot,
            known,
            number: 0,
            notices,
        })
    }

    /// Returns another caller of the same cache, which has seen the calls that this one has.
    ///
    /// Takes memory for as many notices as the cache may hold entries.
    pub fn another(&self, alloc: Global) -> Result<Caller<K, V>, NoMemory>
        ensures seen { IfOk result (λ c. c ≡ record { known = self.now.known; number = 0; left = [] }) }
    {
        let notices = Notices::new(alloc, self.known.config.entries as usize)?;
        let Ok(slot) = Arc::try_clone(&self.slot) else {
            return Err(NoMemory);
        };
        Ok(Caller {
            slot,
            known: Known {
                config: self.known.config,
                seen: self.known.seen.again(),
            },
            number: 0,
            notices,
        })
    }

    /// Makes the call as one step of the cache, or finds that another call is at work.
    ///
    /// Never waits. Takes as much memory as the call's own step.
    #[inline(always)]
    #[tactic(auto, using(crate::proofs::Placing::becomes))]
    pub fn call(&mut self, call: Call<K, V>) -> Result<Reply<V>, Unmade>
        ensures made { Becomes K.eq K.word V.measure V.Share.is_copied result call self.old self.new }
    {
        let Some(mut held) = take(&self.slot) else {
            return Err(Unmade::Busy);
        };
        let made = step(&mut held.kept, &self.known, call);
        if let Err(Unmade::Lost) = made {
            return made;
        }
        mem::swap(&mut held.kept.notices, &mut self.notices);
        self.known.seen = held.kept.log.seen();
        self.number = held.kept.count;
        give(&self.slot, held);
        made
    }

    /// Adds to the calls that this caller has seen those of another caller of the same cache.
    ///
    /// So the next calls of this caller follow them. Takes no memory. O(1), and nothing at run time.
    pub fn meet(&mut self, other: &Caller<K, V>)
        requires one_log { other.now.known.seen.book ≡ self.old.known.seen.book }
        ensures this { IsPrefix self.old.known.seen.entries self.new.known.seen.entries }
        ensures that { IsPrefix other.now.known.seen.entries self.new.known.seen.entries }
        ensures same { (self.new.known.config ≡ self.old.known.config)
            × (self.new.known.seen.book ≡ self.old.known.seen.book)
            × (self.new.number ≡ self.old.number) × (self.new.left ≡ self.old.left) }
    {
        self.known.seen.learn(&other.known.seen);
    }

    /// States what is true of the calls that this caller has seen, as of every run of a cache: a key
    /// has at most one current load; an id is opened at most once, and is then open or landed once; a
    /// landing tells of the lead and of each call that joins; and a stale load isn't stored.
    ///
    /// What a look, a seek or a peek hits was stored for the key, by a put or a landing, less than
    /// `after_write` before, and its own life isn't over. Behind a put of the key that wasn't refused
    /// it is that value, or one that a call between the two stored: a put, or the landing of a load
    /// that was opened between. It holds if the cache was lawful at the put, as each call says.
    ///
    /// The function does nothing, and takes no memory.
    pub fn laws(&self)
        ensures { IsRun K.eq K.word V.measure self.now.known.config self.now.known.seen.entries }
    {
        one_current_load::<K, V>();
        landed_once::<K, V>();
        sharers_are_the_lead_and_joins::<K, V>();
        stale_results_are_not_stored::<K, V>();
        served_values_are_young::<K, V>();
        own_put_is_read::<K, V>();
    }

    /// Returns the number of the latest call in the history, from 1; 0 before the first call. If an
    /// allocation failed, it is that of the call before.
    ///
    /// Takes no memory. O(1).
    #[inline(always)]
    pub fn number(&self) -> u64
        ensures { result ≡ self.now.number }
    {
        let Caller { number, .. } = self;
        *number
    }

    /// Returns what left in the latest call that wasn't busy, the earliest first.
    ///
    /// Takes no memory. O(1).
    #[inline(always)]
    pub fn left(&self) -> &[Notice<K, V>]
        ensures { result.now ≡ self.now.left }
    {
        self.notices.list()
    }
}

fn sendable<T: Send>() {}

/// Proves, by being checked, that a caller may go to another thread.
pub fn caller_is_sendable<K: CacheKey, V: Share + Weighs + Send + Sync>() {
    sendable::<Caller<K, V>>();
}
