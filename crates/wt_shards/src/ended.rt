// A shard that ended: its last numbers with its closed books, and its history.
ghost use Rattle.std.specs.Prelude.{◌≡◌, IsTrue, IsFalse};
ghost use Rattle.wt_shards.specs.Endings.{AddsTo, FallsShort, IsAddedTo};

use crate::closed::Closed;
use crate::shard_ledger::ShardLedger;
use crate::shard_pass::ShardPass;
use std::marker::Model;
use std::sync::ledger::Ledger;
use wt_core::Call;
use wt_history::Front;

/// The final counts of a shard, with its closed books and its history.
#[derive(Drop)]
pub struct Ended<K, V, S: ShardLedger, H: Ledger> {
    pub(crate) closed: Closed<S, H>,
    // All calls.
    pub(crate) whole: Front<Call<K, V>, S>,
}

impl<K, V, S: ShardLedger, H: Ledger> Model for Ended<K, V, S, H> {
    ghost use Rattle.std.specs.Prelude.{◌≡◌, length};
    ghost use Rattle.wt_shards.specs.Endings.{Ending};

    ghost Value = { Ending K V };

    ghost view = { λ e. record { total = e.closed; calls = e.whole } };

    ghost invariant = { λ e. e.closed.steps ≡ length e.whole };
}

impl<K, V, S: ShardLedger, H: Ledger> Ended<K, V, S, H> {
    // Adds what another caller made and saw at the shard.
    pub(crate) fn absorb(&self, sum: &mut ShardPass<K, V, S, H>, more: ShardPass<K, V, S, H>)
        ensures added { IsAddedTo sum.old.counts more.counts sum.new.counts sum.old.front more.front
            sum.new.front }
    {
        let ShardPass { shares, front, .. } = more;
        self.closed.absorb(&mut sum.shares, shares);
        sum.front.learn(&front);
    }

    // Whether this is all that was made and seen at the shard.
    pub(crate) fn is_all(&self, sum: &mut ShardPass<K, V, S, H>) -> bool
        ensures adds { IsTrue result → AddsTo self.now sum.old.counts sum.old.front }
        ensures short { IsFalse result → FallsShort self.now sum.old.counts sum.old.front }
    {
        let total = self.closed.total();
        self.closed.audit(&mut sum.shares);
        if !self.whole.covers(&sum.front) {
            return false;
        }
        if sum.shares.steps() != total.steps {
            return false;
        }
        sum.shares.hits() == total.hits
    }
}
