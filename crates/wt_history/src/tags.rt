// Numbers that entries bring into a history, for all who know it to agree on.
//
// An entry may have a tag. The tags of a history stand in one list, in the order of their entries. So
// two callers that know a tag's place in it know the same tag.
ghost use Rattle.std.specs.Prelude.{◌≡◌};
ghost use mathlib.Core.List.{IsPrefix};

use crate::rule::Law;
use logbook::Seen;
use std::marker::Model;

/// An entry with its tag, if it has one. No program has such a value: it stands in proofs alone.
pub struct Tagged<E> {
    pub entry: E,
    pub tag: Option<u64>,
}

/// How an `X` describes an entry and its tag.
pub trait Tagging<X, E> {
    ghost use Rattle.std.specs.Prelude.{ℕ, Option};

    ghost entry: { X → E };

    ghost tag: { X → Option ℕ };
}

/// The first tags of a history, and which history it is. It takes no room.
#[derive(Drop)]
pub struct Tags<E> {
    pub(crate) seen: Seen<Tagged<E>, u64, Law>,
}

impl<E> Model for Tags<E> {
    ghost use Rattle.std.specs.Prelude.{◌≡◌, []};
    ghost use Rattle.wt_history.specs.Tags.{Known, tags_of};

    ghost Value = { Known };

    ghost view = { λ t. record { book = t.seen.book; tags = tags_of t.seen.log } };

    ghost invariant = { λ t. t.seen.names ≡ [] };
}

impl<E> Tags<E> {
    /// Returns a copy. Takes no memory. O(1), and nothing at run time.
    pub fn again(&self) -> Tags<E>
        ensures { result ≡ self.now }
    {
        Tags {
            seen: self.seen.again(),
        }
    }

    /// Adds the tags that the other one has. Takes no memory. O(1), and nothing at run time.
    pub fn learn(&mut self, other: &Tags<E>)
        requires one_log { other.now.book ≡ self.old.book }
        ensures same { self.new.book ≡ self.old.book }
        ensures this { IsPrefix self.old.tags self.new.tags }
        ensures that { IsPrefix other.now.tags self.new.tags }
    {
        self.seen.learn(&other.seen);
    }
}
