// What all passes made and saw at each shard, once the shards have ended.
ghost use Rattle.std.specs.Prelude.{◌≡◌, ◌↔◌, ℕ, IfSome, IsSome};
ghost use Rattle.wt_shards.specs.Endings.{AreAdded, AreSummed, IsAddedTo};
ghost use Rattle.wt_shards.specs.Passes.{counts_of, front_of, new_pass};

use crate::books::Books;
use crate::ended::Ended;
use crate::ends::Ends;
use crate::pass::Pass;
use crate::shard_ledger::ShardLedger;
use crate::shard_pass::ShardPass;
use std::marker::Model;
use std::sync::ledger::Ledger;

/// What callers made and saw at each shard, added up.
#[derive(Drop)]
pub(crate) struct Sums<K, V, B: Books> {
    pub(crate) zero: Option<ShardPass<K, V, B::S0, B::H0>>,
    pub(crate) one: Option<ShardPass<K, V, B::S1, B::H1>>,
    pub(crate) two: Option<ShardPass<K, V, B::S2, B::H2>>,
    pub(crate) three: Option<ShardPass<K, V, B::S3, B::H3>>,
}

impl<K, V, B: Books> Model for Sums<K, V, B> {
    ghost use Rattle.std.specs.Prelude.{[], ◌∷◌};
    ghost use Rattle.wt_shards.specs.Passes.{Seen, counts_of, front_of};

    ghost Value = { Seen K V };

    ghost view = { λ s. record {
      counts = record {
        shards = 0;
        counts = counts_of s.zero ∷ counts_of s.one ∷ counts_of s.two ∷ counts_of s.three ∷ [];
      };
      fronts = front_of s.zero ∷ front_of s.one ∷ front_of s.two ∷ front_of s.three ∷ [];
    } };
}

// Adds what another caller made and saw at one shard.
#[tactic(auto, using(wt_history::proofs::Fronts::prefix_self, crate::proofs::Endings::prefix_none))]
fn absorb_at<K, V, S: ShardLedger, H: Ledger>(
    ended: &Option<Ended<K, V, S, H>>,
    sum: &mut Option<ShardPass<K, V, S, H>>,
    more: Option<ShardPass<K, V, S, H>>,
)
    requires there { IsSome more → IsSome ended.now }
    ensures added { IsAddedTo (counts_of sum.old) (counts_of more) (counts_of sum.new)
        (front_of sum.old) (front_of more) (front_of sum.new) }
{
    let Some(more) = more else {
        return;
    };
    let Some(ended) = ended else { unreachable!() };
    match sum.as_mut() {
        Some(sum) => ended.absorb(sum, more),
        None => {
            *sum = Some(more);
        }
    }
}

impl<K, V, B: Books> Sums<K, V, B> {
    // What no caller made.
    fn none() -> Sums<K, V, B>
        ensures { result ≡ new_pass 0 }
    {
        Sums {
            zero: None,
            one: None,
            two: None,
            three: None,
        }
    }

    // Adds what the holder of a pass made and saw.
    fn absorb(&mut self, ends: &Ends<K, V, B>, pass: Pass<K, V, B>)
        ensures { AreAdded self.old pass self.new }
    {
        let Pass {
            shards: _,
            zero,
            one,
            two,
            three,
            sampler: _,
        } = pass;
        absorb_at(&ends.zero, &mut self.zero, zero);
        absorb_at(&ends.one, &mut self.one, one);
        absorb_at(&ends.two, &mut self.two, two);
        absorb_at(&ends.three, &mut self.three, three);
    }

    // What the holders of all passes made and saw.
    pub(crate) fn of(ends: &Ends<K, V, B>, mut passes: Vec<Pass<K, V, B>>) -> Sums<K, V, B>
        ensures { (i : ℕ) → AreSummed i passes.items result }
    {
        let mut sums = Sums::none();
        while let Some(pass) = passes.pop() {
            sums.absorb(ends, pass);
        }
        sums
    }
}
