// A caller's pass: its own counts at each shard, and the histories that it has seen.
ghost use Rattle.std.specs.Prelude.{◌≡◌, ◌↔◌, IsSome};
ghost use mathlib.Core.List.{IsPrefix};
ghost use Rattle.wt_shards.specs.Passes.{AreSeenIn, SeenMore, steps_in, hits_in, counts_of, front_of, shown_of};

use crate::books::Books;
use crate::sampler::Sampler;
use crate::shard_ledger::ShardLedger;
use crate::shard_pass::ShardPass;
use crate::sight::Sight;
use std::marker::Model;
use std::sync::ledger::Ledger;
use wt_core::Call;
use wt_history::Front;

/// A caller's shares of the books of each shard: how many steps and hits its holder made there. In
/// the proofs it also has the beginning of each shard's history that its holder has seen.
///
/// Only calls of the `Shards` that made it move it. It is of one caller at a time, and goes from
/// thread to thread; `settle` takes all of them back.
#[derive(Drop)]
pub struct Pass<K, V, B: Books> {
    pub(crate) shards: usize,
    pub(crate) zero: Option<ShardPass<K, V, B::S0, B::H0>>,
    pub(crate) one: Option<ShardPass<K, V, B::S1, B::H1>>,
    pub(crate) two: Option<ShardPass<K, V, B::S2, B::H2>>,
    pub(crate) three: Option<ShardPass<K, V, B::S3, B::H3>>,
    pub(crate) sampler: Sampler,
}

impl<K, V, B: Books> Model for Pass<K, V, B> {
    ghost use Rattle.std.specs.Prelude.{◌≡◌, ◌<◌, ◌==◌, ◌||◌, ◌↔◌, [], ◌∷◌, IsSome, IsTrue};
    ghost use Rattle.wt_shards.specs.Passes.{Seen, counts_of, front_of};

    ghost Value = { Seen K V };

    ghost view = { λ p. record {
      counts = record {
        shards = p.shards;
        counts = counts_of p.zero ∷ counts_of p.one ∷ counts_of p.two ∷ counts_of p.three ∷ [];
      };
      fronts = front_of p.zero ∷ front_of p.one ∷ front_of p.two ∷ front_of p.three ∷ [];
    } };

    ghost invariant = { λ p. (B.S0.ShardLedger.place.shards ≡ p.shards)
        × IsTrue (p.shards == 1 || (p.shards == 2 || p.shards == 4))
        × ((0 < p.shards) ↔ IsSome p.zero) × ((1 < p.shards) ↔ IsSome p.one)
        × ((2 < p.shards) ↔ IsSome p.two) × ((3 < p.shards) ↔ IsSome p.three) };
}

impl<K, V, B: Books> Pass<K, V, B> {
    /// Returns how many steps its holder made at a shard, 0 at a number not in use. Takes no lock.
    /// O(1).
    pub fn steps(&self, shard: usize) -> u64
        ensures { result ≡ steps_in shard self.now }
    {
        match shard {
            0 => steps_of(&self.zero),
            1 => steps_of(&self.one),
            2 => steps_of(&self.two),
            3 => steps_of(&self.three),
            _ => 0,
        }
    }

    /// Returns how many of them were hits, 0 at a number not in use. Takes no lock. O(1).
    pub fn hits(&self, shard: usize) -> u64
        ensures { result ≡ hits_in shard self.now }
    {
        match shard {
            0 => hits_of(&self.zero),
            1 => hits_of(&self.one),
            2 => hits_of(&self.two),
            3 => hits_of(&self.three),
            _ => 0,
        }
    }

    /// Returns what its holder has seen: a beginning of each shard's history. So another caller can
    /// learn it where the pass itself doesn't go.
    ///
    /// Takes no memory and no lock. O(1).
    pub fn sight(&self) -> Sight<K, V, B>
        ensures { result ≡ self.now.fronts }
    {
        Sight {
            zero: seen_at(&self.zero),
            one: seen_at(&self.one),
            two: seen_at(&self.two),
            three: seen_at(&self.three),
        }
    }

    /// Takes over all that the sight shows. So this pass's next call at a shard stands in the
    /// shard's history behind all calls that the sight shows there.
    ///
    /// Takes no memory and no lock. O(shards).
    pub fn learn(&mut self, sight: &Sight<K, V, B>)
        ensures same { self.new.counts ≡ self.old.counts }
        ensures this { SeenMore self.old self.new }
        ensures that { AreSeenIn sight.now self.new.fronts }
    {
        learn(&mut self.zero, &sight.zero);
        learn(&mut self.one, &sight.one);
        learn(&mut self.two, &sight.two);
        learn(&mut self.three, &sight.three);
    }

    /// Takes over all that the holder of the other pass has seen. So this one's next call at a
    /// shard stands in the shard's history behind all calls that the other holder had made there.
    ///
    /// Takes no memory and no lock. O(shards).
    pub fn meet(&mut self, other: &Pass<K, V, B>)
        ensures same { self.new.counts ≡ self.old.counts }
        ensures this { SeenMore self.old self.new }
        ensures that { SeenMore other.now self.new }
    {
        self.learn(&other.sight());
    }
}

// What was seen of a shard, if there is one.
fn seen_at<K, V, S: ShardLedger, H: Ledger>(
    pass: &Option<ShardPass<K, V, S, H>>,
) -> Option<Front<Call<K, V>, S>>
    ensures there { IsSome result ↔ IsSome pass.now }
    ensures seen { shown_of result ≡ front_of pass.now }
{
    match pass {
        None => None,
        Some(pass) => Some(pass.front.again()),
    }
}

// Takes over what is shown of a shard, if anything is.
fn learn<K, V, S: ShardLedger, H: Ledger>(
    pass: &mut Option<ShardPass<K, V, S, H>>,
    shown: &Option<Front<Call<K, V>, S>>,
)
    requires there { IsSome shown.now → IsSome pass.old }
    ensures there { IsSome pass.new ↔ IsSome pass.old }
    ensures same { counts_of pass.new ≡ counts_of pass.old }
    ensures this { IsPrefix (front_of pass.old) (front_of pass.new) }
    ensures that { IsPrefix (shown_of shown.now) (front_of pass.new) }
{
    match shown {
        None => {}
        Some(shown) => match pass {
            None => {}
            Some(pass) => pass.front.learn(shown),
        },
    }
}

// The steps at a shard, if there is one.
fn steps_of<K, V, S: ShardLedger, H: Ledger>(pass: &Option<ShardPass<K, V, S, H>>) -> u64
    ensures { result ≡ (counts_of pass.now).steps }
{
    match pass {
        None => 0,
        Some(pass) => pass.shares.steps(),
    }
}

// The hits at a shard, if there is one.
fn hits_of<K, V, S: ShardLedger, H: Ledger>(pass: &Option<ShardPass<K, V, S, H>>) -> u64
    ensures { result ≡ (counts_of pass.now).hits }
{
    match pass {
        None => 0,
        Some(pass) => pass.shares.hits(),
    }
}
