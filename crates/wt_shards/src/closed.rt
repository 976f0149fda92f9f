// The final counts of a shard, with its closed books.
ghost use Rattle.std.specs.Prelude.{◌≡◌, ◌+◌, ◌≤◌};

use crate::shares::Shares;
use crate::total::Total;
use std::marker::Model;
use std::sync::ledger::{Book, Ledger, Total as Fixed};

/// The final counts of a shard, with its closed books: only code that closed the ledgers can make
/// one.
#[derive(Drop)]
pub struct Closed<S: Ledger, H: Ledger> {
    total: Total,
    steps: Fixed<S>,
    hits: Fixed<H>,
}

impl<S: Ledger, H: Ledger> Model for Closed<S, H> {
    ghost use Rattle.std.specs.Prelude.{◌≡◌};
    ghost use Rattle.wt_shards.specs.declared.total.Total.{Total};

    ghost Value = { Total };

    ghost view = { λ c. c.total };

    ghost invariant = { λ c. (c.steps.amount ≡ c.total.steps) × (c.hits.amount ≡ c.total.hits) };
}

impl<S: Ledger, H: Ledger> Closed<S, H> {
    /// Closes both books, and keeps the counts, which equal the sums of the books.
    pub(crate) fn of(total: Total, steps: Book<S>, hits: Book<H>) -> Closed<S, H>
        requires { (steps.total ≡ total.steps) × (hits.total ≡ total.hits) }
        ensures { result ≡ total }
    {
        Closed {
            total,
            steps: steps.close(),
            hits: hits.close(),
        }
    }

    /// Returns the final counts of the shard.
    pub fn total(&self) -> Total
        ensures { result ≡ self.now }
    {
        self.total
    }

    // Adds the shares of another caller.
    pub(crate) fn absorb(&self, sum: &mut Shares<S, H>, more: Shares<S, H>)
        ensures steps { sum.new.steps ≡ sum.old.steps + more.steps }
        ensures hits { sum.new.hits ≡ sum.old.hits + more.hits }
    {
        let Total { steps, hits, .. } = self.total;
        sum.absorb(more, &self.steps, &self.hits, steps, hits);
    }

    /// Shows that the caller made no more steps and hits than the books have.
    pub fn audit(&self, shares: &mut Shares<S, H>)
        ensures same { shares.new ≡ shares.old }
        ensures within { (shares.old.steps ≤ self.now.steps) × (shares.old.hits ≤ self.now.hits) }
    {
        shares.audit(&self.steps, &self.hits);
    }
}
