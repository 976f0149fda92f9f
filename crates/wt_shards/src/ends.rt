// Shards that ended, each with its history, and how the passes are compared with them.
ghost use Rattle.std.specs.Prelude.{◌≡◌, ◌<◌, ◌↔◌, ℕ, IfOk, IfErr, OnOk, IfSome, IsSome, IsTrue, IsFalse};
ghost use Rattle.wt_keys.specs.declared.fault.Fault.TheVariants as fault;
ghost use Rattle.wt_shards.specs.Endings.{AddsTo, FallsShort, IsShort};
ghost use Rattle.wt_shards.specs.Passes.{counts_of, front_of};
ghost use Rattle.wt_shards.specs.Totals.{AreSettled};

use crate::books::Books;
use crate::closed::Closed;
use crate::ended::Ended;
use crate::pass::Pass;
use crate::shard_ledger::ShardLedger;
use crate::shard_pass::ShardPass;
use crate::sums::Sums;
use crate::totals::Totals;
use std::marker::Model;
use std::sync::ledger::Ledger;
use wt_keys::Fault;

/// Shards that ended. Contracts see the totals and the whole history of each.
#[derive(Drop)]
pub struct Ends<K, V, B: Books> {
    pub(crate) shards: usize,
    pub(crate) zero: Option<Ended<K, V, B::S0, B::H0>>,
    pub(crate) one: Option<Ended<K, V, B::S1, B::H1>>,
    pub(crate) two: Option<Ended<K, V, B::S2, B::H2>>,
    pub(crate) three: Option<Ended<K, V, B::S3, B::H3>>,
}

impl<K, V, B: Books> Model for Ends<K, V, B> {
    ghost use Rattle.std.specs.Prelude.{◌≡◌, ◌<◌, ◌≤◌, ◌↔◌, IsSome};
    ghost use Rattle.wt_shards.specs.Endings.{Ends};

    ghost Value = { Ends K V };

    ghost view = { λ e. record {
      shards = e.shards;
      zero = e.zero;
      one = e.one;
      two = e.two;
      three = e.three;
    } };

    ghost invariant = { λ e. (B.S0.ShardLedger.place.shards ≡ e.shards)
        × ((0 < e.shards) ↔ IsSome e.zero) × ((1 < e.shards) ↔ IsSome e.one)
        × ((2 < e.shards) ↔ IsSome e.two) × ((3 < e.shards) ↔ IsSome e.three)
        × (e.shards ≤ 4) };
}

// Whether this is all that was made and seen at a shard; nothing, if there is no pass.
#[tactic(auto, using(crate::proofs::Endings::prefix_none))]
fn is_all<K, V, S: ShardLedger, H: Ledger>(
    ended: &Ended<K, V, S, H>,
    all: Option<ShardPass<K, V, S, H>>,
) -> bool
    ensures adds { IsTrue result → AddsTo ended.now (counts_of all) (front_of all) }
    ensures short { IsFalse result → FallsShort ended.now (counts_of all) (front_of all) }
{
    let Some(mut all) = all else {
        let total = ended.closed.total();
        if total.steps != 0 {
            return false;
        }
        return total.hits == 0;
    };
    ended.is_all(&mut all)
}

// The closed books of the shard of a number, if there is one, and if the passes made and saw all of
// its history.
fn settle_at<K, V, S: ShardLedger, H: Ledger>(
    ended: Option<Ended<K, V, S, H>>,
    all: Option<ShardPass<K, V, S, H>>,
    number: u32,
) -> Result<Option<Closed<S, H>>, Fault>
    ensures there { IfOk result (λ closed. IsSome closed ↔ IsSome ended) }
    ensures total { IfOk result (λ closed. IfSome ended (λ e. IfSome closed (λ total. total ≡ e.total))) }
    ensures adds { OnOk result (IfSome ended (λ e. AddsTo e (counts_of all) (front_of all))) }
    ensures short { IfErr result (λ f. (f ≡ fault.PassMissing number) × IsSome ended
        × IfSome ended (λ e. FallsShort e (counts_of all) (front_of all))) }
{
    let Some(ended) = ended else {
        return Ok(None);
    };
    if !is_all(&ended, all) {
        return Err(Fault::PassMissing { shard: number });
    }
    let Ended { closed, whole: _ } = ended;
    Ok(Some(closed))
}

impl<K, V, B: Books> Ends<K, V, B> {
    /// Compares the books of the shards with the passes that come back, and returns the totals, if
    /// the passes made every step and every hit that the books have.
    ///
    /// Otherwise returns `PassMissing` with the first shard at which they made less, or at which one
    /// of them has seen more calls than all of them made. Takes no lock and no memory. O(passes).
    ///
    /// In use: `uses::lines::end`.
    pub fn settle(self, passes: Vec<Pass<K, V, B>>) -> Result<Totals<B>, Fault>
        ensures shards { IfOk result (λ totals. totals.shards ≡ self.shards) }
        ensures totals { IfOk result (AreSettled self passes.items) }
        ensures missing { IfErr result (λ f. (least : ℕ) × (least < self.shards)
            × (f ≡ fault.PassMissing least) × IsShort self passes.items least) }
    {
        let all = Sums::of(&self, passes);
        let Ends {
            shards,
            zero,
            one,
            two,
            three,
        } = self;
        let zero = match settle_at(zero, all.zero, 0) {
            Ok(zero) => zero,
            Err(fault) => return Err(fault),
        };
        let one = match settle_at(one, all.one, 1) {
            Ok(one) => one,
            Err(fault) => return Err(fault),
        };
        let two = match settle_at(two, all.two, 2) {
            Ok(two) => two,
            Err(fault) => return Err(fault),
        };
        let three = match settle_at(three, all.three, 3) {
            Ok(three) => three,
            Err(fault) => return Err(fault),
        };
        Ok(Totals {
            shards,
            zero,
            one,
            two,
            three,
        })
    }
}
