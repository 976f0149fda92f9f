// The final counts of all shards, with the closed ledgers that vouch for them.
ghost use Rattle.std.specs.Prelude.{◌≡◌, ◌<◌, IsSome};

use crate::books::Books;
use crate::closed::Closed;
use crate::total::Total;
use std::marker::Model;
use std::sync::ledger::Ledger;

/// The final counts of each shard, with its closed books.
#[derive(Drop)]
pub struct Totals<B: Books> {
    pub(crate) shards: usize,
    pub(crate) zero: Option<Closed<B::S0, B::H0>>,
    pub(crate) one: Option<Closed<B::S1, B::H1>>,
    pub(crate) two: Option<Closed<B::S2, B::H2>>,
    pub(crate) three: Option<Closed<B::S3, B::H3>>,
}

impl<B: Books> Model for Totals<B> {
    ghost use Rattle.std.specs.Prelude.{◌<◌, ◌≤◌, ◌↔◌, IsSome};
    ghost use Rattle.wt_shards.specs.Totals.{Settled};

    ghost Value = { Settled };

    ghost view = { λ t. record {
      shards = t.shards;
      zero = t.zero;
      one = t.one;
      two = t.two;
      three = t.three;
    } };

    ghost invariant = { λ t. ((0 < t.shards) ↔ IsSome t.zero) × ((1 < t.shards) ↔ IsSome t.one)
        × ((2 < t.shards) ↔ IsSome t.two) × ((3 < t.shards) ↔ IsSome t.three)
        × (t.shards ≤ 4) };
}

impl<B: Books> Totals<B> {
    ghost use Rattle.wt_shards.specs.Totals.{total_at};

    /// Returns the final counts of the shard of this number: `Some` for each number below `shards`.
    pub fn of(&self, shard: usize) -> Option<Total>
        ensures total { result ≡ total_at shard self.now }
        ensures there { shard < self.now.shards → IsSome result }
    {
        match shard {
            0 => total(&self.zero),
            1 => total(&self.one),
            2 => total(&self.two),
            3 => total(&self.three),
            _ => None,
        }
    }
}

fn total<S: Ledger, H: Ledger>(closed: &Option<Closed<S, H>>) -> Option<Total>
    ensures { result ≡ closed.now }
{
    match closed {
        None => None,
        Some(closed) => Some(closed.total()),
    }
}
