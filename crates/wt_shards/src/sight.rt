// What a caller has seen, apart from its pass, so that it can go where the pass doesn't.
ghost use Rattle.std.specs.Prelude.{◌≡◌, ◌⊎◌, IsSome};
ghost use mathlib.Core.List.{IsPrefix};
ghost use Rattle.wt_shards.specs.Passes.{AreSeenIn, nothing_seen, shown_of};

use crate::books::Books;
use std::marker::Model;
use wt_core::Call;
use wt_history::{Front, Naming};

/// What the holder of a pass has seen: a beginning of each shard's history, and no counts.
///
/// It can be sent to another thread, copied and dropped. The next calls of a caller whose pass
/// learns it stand in the histories behind all calls that it shows. At run time it has the length of
/// each of these beginnings.
pub struct Sight<K, V, B: Books> {
    pub(crate) zero: Option<Front<Call<K, V>, B::S0>>,
    pub(crate) one: Option<Front<Call<K, V>, B::S1>>,
    pub(crate) two: Option<Front<Call<K, V>, B::S2>>,
    pub(crate) three: Option<Front<Call<K, V>, B::S3>>,
}

impl<K, V, B: Books> Model for Sight<K, V, B> {
    ghost use Rattle.std.specs.Prelude.{◌≡◌, ◌<◌, List, [], ◌∷◌, IsSome};
    ghost use Rattle.wt_core.specs.declared.calls.Call.{Call};
    ghost use Rattle.wt_shards.specs.Passes.{shown_of};

    ghost Value = { List (List (Call K V)) };

    ghost view = { λ s. shown_of s.zero ∷ shown_of s.one ∷ shown_of s.two ∷ shown_of s.three ∷ [] };

    // A shard that it shows is in use.
    ghost invariant = { λ s. (IsSome s.one → 1 < B.S0.ShardLedger.place.shards)
        × (IsSome s.two → 2 < B.S0.ShardLedger.place.shards)
        × (IsSome s.three → 3 < B.S0.ShardLedger.place.shards) };
}

// In place of a derived one, whose cases each caller that drops a sight would have to prove.
impl<K, V, B: Books> Drop for Sight<K, V, B> {
    fn drop(self) {
        let Sight {
            zero: _,
            one: _,
            two: _,
            three: _,
        } = self;
    }
}

impl<K, V, B: Books> Sight<K, V, B> {
    /// Returns a sight that shows nothing yet, to collect others in. Takes no memory. O(1).
    pub fn new() -> Sight<K, V, B>
        ensures { result ≡ nothing_seen }
    {
        Sight {
            zero: None,
            one: None,
            two: None,
            three: None,
        }
    }

    /// Returns a copy. Takes no memory. O(1).
    pub fn again(&self) -> Sight<K, V, B>
        ensures { result ≡ self.now }
    {
        Sight {
            zero: again(&self.zero),
            one: again(&self.one),
            two: again(&self.two),
            three: again(&self.three),
        }
    }

    /// Adds to this sight what the other one shows. Takes no memory. O(1).
    pub fn learn(&mut self, other: &Sight<K, V, B>)
        ensures this { AreSeenIn self.old self.new }
        ensures that { AreSeenIn other.now self.new }
    {
        learn(&mut self.zero, &other.zero);
        learn(&mut self.one, &other.one);
        learn(&mut self.two, &other.two);
        learn(&mut self.three, &other.three);
    }
}

// A copy of what is shown of a shard, if anything is.
fn again<K, V, S: Naming>(front: &Option<Front<Call<K, V>, S>>) -> Option<Front<Call<K, V>, S>>
    ensures { result ≡ front.now }
{
    match front {
        None => None,
        Some(front) => Some(front.again()),
    }
}

// Adds what the other one shows of a shard.
fn learn<K, V, S: Naming>(
    front: &mut Option<Front<Call<K, V>, S>>,
    other: &Option<Front<Call<K, V>, S>>,
)
    ensures there { IsSome front.new → IsSome front.old ⊎ IsSome other.now }
    ensures this { IsPrefix (shown_of front.old) (shown_of front.new) }
    ensures that { IsPrefix (shown_of other.now) (shown_of front.new) }
{
    match other {
        None => {}
        Some(other) => {
            let mut both = other.again();
            if let Some(front) = front {
                both.learn(front);
            }
            *front = Some(both);
        }
    }
}
