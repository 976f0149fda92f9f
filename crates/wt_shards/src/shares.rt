// A caller's shares of the two books of a shard.
ghost use Rattle.std.specs.Prelude.{◌≡◌, ◌+◌, ◌<◌, ◌≤◌, ◌^◌, if◌then◌else◌};

use std::marker::Model;
use std::sync::ledger::{Book, Ledger, Share as Part, Total as Fixed};

/// How many steps and hits a caller made at one shard. Only steps of that shard change it, and the
/// sum of all shares given out is the shard's own count.
#[derive(Drop)]
pub struct Shares<S: Ledger, H: Ledger> {
    steps: u64,
    hits: u64,
    of_steps: Part<S>,
    of_hits: Part<H>,
}

impl<S: Ledger, H: Ledger> Model for Shares<S, H> {
    ghost use Rattle.std.specs.Prelude.{◌≡◌, ◌<◌};
    ghost use Rattle.wt_shards.specs.Counts.{ShardCounts};

    ghost Value = { ShardCounts };

    ghost view = { λ s. record { steps = s.steps; hits = s.hits } };

    ghost invariant = { λ s. (s.of_steps.amount ≡ s.steps) × (s.of_hits.amount ≡ s.hits)
        × (0 < s.of_steps.parts) × (0 < s.of_hits.parts) };
}

impl<S: Ledger, H: Ledger> Shares<S, H> {
    ghost use Rattle.wt_shards.specs.Counts.{no_steps, plus_step};

    // Shares of nothing.
    pub(crate) fn of(of_steps: Part<S>, of_hits: Part<H>) -> Shares<S, H>
        requires { (of_steps.amount ≡ 0) × (of_hits.amount ≡ 0)
            × (0 < of_steps.parts) × (0 < of_hits.parts) }
        ensures { result ≡ no_steps }
    {
        Shares {
            steps: 0,
            hits: 0,
            of_steps,
            of_hits,
        }
    }

    /// Returns how many steps the caller made at the shard. O(1).
    pub fn steps(&self) -> u64
        ensures { result ≡ self.now.steps }
    {
        self.steps
    }

    /// Returns how many hits the caller had at the shard. O(1).
    pub fn hits(&self) -> u64
        ensures { result ≡ self.now.hits }
    {
        self.hits
    }

    // They are within the closed books.
    pub(crate) fn audit(&mut self, steps: &Fixed<S>, hits: &Fixed<H>)
        ensures same { self.new ≡ self.old }
        ensures within { (self.old.steps ≤ steps.now.amount) × (self.old.hits ≤ hits.now.amount) }
    {
        steps.audit(&mut self.of_steps);
        hits.audit(&mut self.of_hits);
    }

    // Adds the shares of another caller. The closed books, which have `most` steps and `most_hits`
    // hits, bound the sums.
    pub(crate) fn absorb(
        &mut self,
        more: Shares<S, H>,
        steps: &Fixed<S>,
        hits: &Fixed<H>,
        most: u64,
        most_hits: u64,
    )
        requires most { (steps.now.amount ≡ most) × (hits.now.amount ≡ most_hits) }
        ensures steps { self.new.steps ≡ self.old.steps + more.steps }
        ensures hits { self.new.hits ≡ self.old.hits + more.hits }
    {
        let Shares {
            steps: more_steps,
            hits: more_hits,
            of_steps,
            of_hits,
        } = more;
        self.of_steps.merge(of_steps);
        self.of_hits.merge(of_hits);
        steps.audit(&mut self.of_steps);
        hits.audit(&mut self.of_hits);
        self.steps += more_steps;
        self.hits += more_hits;
    }

    // One step more in its book and in the share of it, and a hit if it was one.
    pub(crate) fn count(&mut self, steps: &mut Book<S>, hits: &mut Book<H>, hit: bool)
        requires { (steps.old.total < 2 ^ 62) × (hits.old.total < 2 ^ 62) }
        ensures moved { self.new ≡ plus_step hit self.old }
        ensures steps { steps.new.total ≡ steps.old.total + 1 }
        ensures hits { hits.new.total ≡ hits.old.total + (if hit then 1 else 0) }
        ensures later { self.old.steps ≤ steps.old.total }
    {
        steps.audit(&mut self.of_steps);
        steps.add(&mut self.of_steps, 1);
        self.steps += 1;
        if hit {
            hits.audit(&mut self.of_hits);
            hits.add(&mut self.of_hits, 1);
            self.hits += 1;
        }
    }
}
