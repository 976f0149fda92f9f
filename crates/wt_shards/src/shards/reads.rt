// The reads of shards: settings, numbers, and the value of a key. None of them is a step, but that
// `read` tells the policy of some hits by a look. Each lock is held only while its shard is read.
ghost use Rattle.std.specs.Prelude.{◌≡◌, ◌+◌, ◌*◌, ◌≤◌, ◌==◌, ◌||◌, ◌↔◌, IfOk, IsNone, IsSome, IsTrue};
ghost use mathlib.Core.List.{IsPrefix};
ghost use Rattle.wt_core.specs.Lawful.{AreSmall};
ghost use Rattle.wt_core.specs.Sums.{no_numbers};
ghost use Rattle.wt_shards.specs.Members.{members_of};
ghost use Rattle.wt_shards.specs.Numbers.{AreNumbersOf, AreSeenNumbers, AreWithin};
ghost use Rattle.wt_shards.specs.Passes.{counts_of, front_of};
ghost use Rattle.wt_shards.specs.Peeks.{FoundAnswers, IsHomePeek, IsLockedPeek};
ghost use Rattle.wt_shards.specs.Place.{home_at};
ghost use Rattle.wt_shards.specs.Tells.{IsHomeRead, IsTold};

use crate::at_home::at_home;
use crate::books::Books;
use crate::pass::Pass;
use crate::recorded::Recorded;
use crate::shard_ledger::ShardLedger;
use crate::shard_pass::ShardPass;
use crate::shards::Shards;
use crate::value::Value;
use std::sync::Wait;
use std::sync::ledger::Ledger;
use wt_core::{Notices, Stats};
use wt_keys::{CacheKey, Fault, shard_of};
use wt_stripes::Striped;

// The numbers of one shard, if there is one.
fn stats_at<K: CacheKey, V: Value<K>, S: ShardLedger, H: Ledger, R: Wait>(
    rt: &R,
    shard: &Option<Striped<Recorded<K, V, S, H>>>,
) -> Stats
    ensures none { IsNone shard.now → result ≡ no_numbers }
    ensures looked { result.hits + result.misses ≡ result.lookups }
    ensures within { AreWithin S.ShardLedger.place.config.entries S.ShardLedger.place.config.bound
        result }
    ensures small { AreSmall result }
{
    let Some(shard) = shard else {
        return Stats::NOTHING;
    };
    let held = shard.read(rt, 0);
    let recorded = &*held;
    // For the prover: shows what holds of the shard.
    let _steps = recorded.shard.steps();
    recorded.shard.stats()
}

// The numbers of one shard after a history that the caller then has seen, if there is a shard.
fn seen_stats_at<K: CacheKey, V: Value<K>, S: ShardLedger, H: Ledger, R: Wait>(
    rt: &R,
    shard: &Option<Striped<Recorded<K, V, S, H>>>,
    pass: &mut Option<ShardPass<K, V, S, H>>,
) -> Stats
    requires alike { IsSome shard.now ↔ IsSome pass.old }
    ensures made { IsSome pass.old → AreNumbersOf (members_of K.CacheKey V.Value)
        S.ShardLedger.place (front_of pass.new) result }
    ensures none { IsNone pass.old → result ≡ no_numbers }
    ensures later { IsPrefix (front_of pass.old) (front_of pass.new) }
    ensures same { counts_of pass.new ≡ counts_of pass.old }
    ensures there { IsSome pass.new ↔ IsSome pass.old }
    ensures looked { result.hits + result.misses ≡ result.lookups }
    ensures small { AreSmall result }
{
    match (shard, pass) {
        (Some(shard), Some(part)) => shard.read(rt, part.stripe).stats(rt, part),
        _ => Stats::NOTHING,
    }
}

// A share of the value that a look at one shard would hit, if it would hit.
#[inline(always)]
fn peek_at<K: CacheKey, V: Value<K>, S: ShardLedger, H: Ledger, R: Wait>(
    rt: &R,
    shard: &Striped<Recorded<K, V, S, H>>,
    pass: &mut ShardPass<K, V, S, H>,
    key: K,
    now: u64,
) -> Result<Option<V>, Fault>
    ensures made { IsLockedPeek (members_of K.CacheKey V.Value) S.ShardLedger.place key now
        pass.old pass.new result }
    ensures answers { IfOk result (FoundAnswers V.answers key) }
{
    shard.read(rt, pass.stripe).peek(rt, pass, key, now)
}

impl<K: CacheKey, V: Value<K>, B: Books> Shards<K, V, B> {
    /// Returns how many entries one shard may hold. Takes no lock. O(1).
    pub fn entries(&self) -> u32
        ensures { result ≡ self.now.config.entries }
    {
        self.config.entries
    }

    /// Returns how many shards there are: 1, 2 or 4. Takes no lock. O(1).
    pub fn shards(&self) -> usize
        ensures value { result ≡ self.now.shards }
        ensures few { result ≤ 4 }
        ensures within { IsTrue (result == 1 || (result == 2 || result == 4)) }
    {
        self.shards
    }

    /// Returns a share of the value that a look of the key would hit at `now`, if it would hit.
    ///
    /// Is no step: it uses no entry, and neither the shard nor the pass counts it. `now` is in
    /// milliseconds. Takes memory for that share alone, and that shard's lock. Expected O(1), unless
    /// an attacker chooses the keys (see `Seeded`). Not promised: that the call returns, and that
    /// the result still holds when it does.
    pub fn peek<R: Wait>(
        &self,
        rt: &R,
        pass: &mut Pass<K, V, B>,
        key: K,
        now: u64,
    ) -> Result<Option<V>, Fault>
        ensures made { IsHomePeek (members_of K.CacheKey V.Value) (home_at K.word key self.now)
            key now pass.old pass.new result }
        ensures answers { IfOk result (FoundAnswers V.answers key) }
    {
        let home = shard_of(key.word(), self.shards);
        at_home!(
            home,
            self,
            pass,
            |shard, part| peek_at(rt, shard, part, key, now)
        )
    }

    /// Returns a share of the value that a look of the key would hit at `now`, if it would hit, and
    /// lets the policy hear of a part of the hits.
    ///
    /// Is a `peek`, and then a `look` of the same key for each of the first 8 hits after a read of
    /// this pass that found nothing, for one in 16 of the next 1,024 hits, and for one in 256 of
    /// the others. With `after_access` each hit is followed by a look, which renews its entry. A
    /// look that is refused changes nothing, and is no fault of the read. Only looks are counted: by
    /// the shard, and by the pass. A read that finds nothing is followed by no look, since a seek or
    /// a put of the key comes next.
    ///
    /// `now` is in milliseconds. `NoMemory` is the only fault. Takes memory for the share of the
    /// value, and for a look what that takes. Takes that shard's lock, and for a look once more.
    /// Expected amortised O(1), unless an attacker chooses the keys (see `Seeded`). Not promised:
    /// that the call returns, and that the result still holds when it does.
    pub fn read<R: Wait>(
        &self,
        rt: &R,
        pass: &mut Pass<K, V, B>,
        key: K,
        now: u64,
        notices: &mut Notices<K, V>,
    ) -> Result<Option<V>, Fault>
        requires room { self.now.config.entries ≤ notices.old.room }
        ensures made { IsHomeRead (members_of K.CacheKey V.Value) (home_at K.word key self.now)
            key now pass.old pass.new notices.old notices.new result }
        ensures answers { IfOk result (FoundAnswers V.answers key) }
    {
        let Some(value) = self.peek(rt, pass, key, now)? else {
            pass.sampler.missed();
            return Ok(None);
        };
        if self.config.after_access.is_none() && !pass.sampler.is_told() {
            return Ok(Some(value));
        }
        self.tell(rt, pass, key, now, notices);
        Ok(Some(value))
    }

    // Lets the policy hear of a read by a look of its key, whose answer nobody gets.
    fn tell<R: Wait>(
        &self,
        rt: &R,
        pass: &mut Pass<K, V, B>,
        key: K,
        now: u64,
        notices: &mut Notices<K, V>,
    )
        requires room { self.now.config.entries ≤ notices.old.room }
        ensures told { IsTold (members_of K.CacheKey V.Value) (home_at K.word key self.now) key now
            pass.old pass.new notices.old notices.new }
    {
        let _ = self.look(rt, pass, key, now, notices);
    }

    /// Returns the numbers of all shards, added up.
    ///
    /// Takes no memory. Takes each shard's lock in turn, and is no step. O(shards). Not promised:
    /// that it returns, and that all shards had these numbers at one moment.
    pub fn stats<R: Wait>(&self, rt: &R) -> Stats
        ensures looked { result.hits + result.misses ≡ result.lookups }
        ensures within { AreWithin (self.now.shards * self.now.config.entries)
            (self.now.shards * self.now.config.bound) result }
    {
        let zero = stats_at(rt, &self.zero);
        let one = stats_at(rt, &self.one);
        let two = stats_at(rt, &self.two);
        let three = stats_at(rt, &self.three);
        zero.plus(&one).plus(&two).plus(&three)
    }

    /// Returns the numbers of all shards, added up: of each shard those that it has after all calls
    /// which the pass then has seen there. So they count each call that the pass had seen.
    ///
    /// Is no step, and the pass doesn't count it. Takes no memory, and each shard's lock in turn.
    /// O(shards). Not promised: that it returns, and that all shards had these numbers at one
    /// moment.
    pub fn seen_stats<R: Wait>(&self, rt: &R, pass: &mut Pass<K, V, B>) -> Stats
        ensures made { AreSeenNumbers (members_of K.CacheKey V.Value) self.now pass.old pass.new
            result }
    {
        let zero = seen_stats_at(rt, &self.zero, &mut pass.zero);
        let one = seen_stats_at(rt, &self.one, &mut pass.one);
        let two = seen_stats_at(rt, &self.two, &mut pass.two);
        let three = seen_stats_at(rt, &self.three, &mut pass.three);
        zero.plus(&one).plus(&two).plus(&three)
    }
}
