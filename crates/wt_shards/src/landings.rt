// Which landing each load of a shard has, so that two callers that share a load know it.
ghost use Rattle.std.specs.Prelude.{◌≡◌};
ghost use Rattle.wt_flights.specs.Outcomes.{AgreeIfKnown};
ghost use Rattle.wt_shards.specs.Landings.{IsLandingOf};

use crate::sought::Sought;
use std::marker::Model;
use wt_core::Call;
use wt_flights::Ticket;
use wt_history::{Tagging, Tags};

/// Which landing each load of a shard has that was opened before some moment. It takes no room.
///
/// A ticket shows its load's id, but nothing says that two tickets of one id are of one landing.
/// This does, since the shard's history names the landing of each load that it opens.
#[derive(Drop)]
pub struct Landings<K, V> {
    pub(crate) tags: Tags<Call<K, V>>,
}

impl<K, V> Model for Landings<K, V> {
    ghost use Rattle.wt_history.specs.Tags.{Known};

    ghost Value = { Known };

    ghost view = { λ l. l.tags };
}

/// The answer of a seek, and what is then known of the loads of its shard.
#[derive(Drop)]
pub struct Sharing<K, V> {
    pub sought: Sought<K, V>,
    pub landings: Landings<K, V>,
}

impl<K: Copy, V: Drop> Landings<K, V> {
    /// Returns a copy. Takes no memory. O(1), and nothing at run time.
    pub fn again(&self) -> Landings<K, V>
        ensures { result ≡ self.now }
    {
        Landings {
            tags: self.tags.again(),
        }
    }

    /// Shows that two tickets of one load know the same outcome, if both know one. The other ticket
    /// may be another caller's, who knows its landing by `theirs`.
    ///
    /// For proofs: the call does nothing. Takes no memory and no lock.
    pub fn compare(
        &self,
        mine: &mut Ticket<K, V>,
        theirs: &Landings<K, V>,
        other: &mut Ticket<K, V>,
    )
        requires one_shard { theirs.now.book ≡ self.now.book }
        requires one_landing { other.old.id ≡ mine.old.id }
        requires landings { IsLandingOf self.now.tags mine.old.id mine.old.landing
            × IsLandingOf theirs.now.tags other.old.id other.old.landing }
        ensures same { (mine.new ≡ mine.old) × (other.new ≡ other.old) }
        ensures agree { AgreeIfKnown mine.old.known other.old.known }
    {
        let mut both = self.tags.again();
        both.learn(&theirs.tags);
        mine.compare(other);
    }
}

// A seek with its answer, as the shard's history has it.
#[derive(Drop)]
pub(crate) struct Answered<K, V> {
    pub(crate) key: K,
    pub(crate) now: u64,
    pub(crate) sought: Sought<K, V>,
}

// The seek is the entry, and the landing of the load that it opens is the entry's tag.
pub(crate) struct Opens;

impl<K, V> Tagging<Answered<K, V>, Call<K, V>> for Opens {
    ghost use Rattle.wt_core.specs.declared.calls.Call.TheVariants.{Seek};
    ghost use Rattle.wt_shards.specs.Landings.{tag_of};

    ghost entry = { λ a. Seek a.key a.now };

    ghost tag = { λ a. tag_of a.sought };
}
