// How the shards end.
ghost use Rattle.std.specs.Prelude.{◌≡◌, ◌<◌, ◌↔◌, ℕ, IfOk, IfErr, IfSome, IsSome};
ghost use Rattle.wt_keys.specs.declared.fault.Fault.TheVariants as fault;
ghost use Rattle.wt_shards.specs.Members.{members_of};
ghost use Rattle.wt_shards.specs.Place.{place_of};
ghost use Rattle.wt_shards.specs.Totals.{AddUpBelow, AreEndings, AreTotals, IsEnding, IsMissing};

use crate::books::Books;
use crate::ended::Ended;
use crate::ends::Ends;
use crate::pass::Pass;
use crate::recorded::Recorded;
use crate::shard_ledger::ShardLedger;
use crate::shards::Shards;
use crate::totals::Totals;
use crate::value::Value;
use std::alloc::Global;
use std::sync::Wait;
use std::sync::ledger::Ledger;
use wt_keys::{CacheKey, Fault};
use wt_stripes::Striped;

// Ends the shard of a number, if there is one.
fn end_at<K: CacheKey, V: Value<K>, S: ShardLedger, H: Ledger, R: Wait>(
    rt: &R,
    shard: Option<Striped<Recorded<K, V, S, H>>>,
) -> Option<Ended<K, V, S, H>>
    ensures there { IsSome result ↔ IsSome shard }
    ensures sound { IfSome result (IsEnding (members_of K.CacheKey V.Value) S.ShardLedger.place) }
{
    match shard {
        Some(shard) => Some(shard.into_inner(rt).close()),
        None => None,
    }
}

impl<K: CacheKey, V: Value<K>, B: Books> Shards<K, V, B> {
    /// Ends the shards, and shows the whole history of each, and the totals that it led to.
    ///
    /// `Ends::settle` then compares them with the passes. Takes no lock, since nobody else has the
    /// shards any more, and no memory. O(entries).
    ///
    /// In use: `uses::lines::end`.
    pub fn end<R: Wait>(self, rt: &R) -> Ends<K, V, B>
        ensures shards { result.shards ≡ self.shards }
        ensures sound { AreEndings (members_of K.CacheKey V.Value) self result }
    {
        let Shards {
            shards,
            config: _,
            zero,
            one,
            two,
            three,
        } = self;
        Ends {
            shards,
            zero: end_at(rt, zero),
            one: end_at(rt, one),
            two: end_at(rt, two),
            three: end_at(rt, three),
        }
    }

    /// Ends the shards, and compares their books with the passes that come back: `end`, and then
    /// `Ends::settle`.
    ///
    /// In use: `uses::lines::finish`.
    pub fn settle<R: Wait>(
        self,
        rt: &R,
        _alloc: Global,
        passes: Vec<Pass<K, V, B>>,
    ) -> Result<Totals<B>, Fault>
        ensures shards { IfOk result (λ totals. totals.shards ≡ self.shards) }
        ensures totals { IfOk result (λ totals. AreTotals (members_of K.CacheKey V.Value) self
            passes.items totals) }
        ensures missing { IfErr result (λ f. (least : ℕ) × (least < self.shards)
            × (f ≡ fault.PassMissing least)
            × IsMissing (members_of K.CacheKey V.Value) (place_of least self) passes.items
            × AddUpBelow (members_of K.CacheKey V.Value) self passes.items least) }
    {
        let ends = self.end(rt);
        ends.settle(passes)
    }
}
