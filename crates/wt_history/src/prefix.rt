// The beginning of a log that a caller has seen. Its value says which log, and no type does.
ghost use Rattle.std.specs.Prelude.{◌≡◌, ◌+◌, ◌<◌, ◌≤◌, ◌^◌, ◌++◌, ◌∷◌, [], length, MatchBool};
ghost use mathlib.Core.List.{IsPrefix};
ghost use Rattle.wt_history.specs.Rules.{head_of};

use crate::rule::{Add, Law, Look, Nothing};
use crate::trail::Asked;
use logbook::{Seen, Word};
use std::marker::Model;

/// A beginning of a log: the entries that its holder has seen. It takes no room.
#[derive(Drop)]
pub struct Prefix<E> {
    pub(crate) seen: Seen<E, u64, Law>,
}

impl<E> Model for Prefix<E> {
    ghost use Rattle.std.specs.Prelude.{◌≡◌, []};
    ghost use Rattle.wt_history.specs.Logged.{Logged};

    ghost Value = { Logged E };

    ghost view = { λ p. record { book = p.seen.book; entries = p.seen.log } };

    ghost invariant = { λ p. p.seen.names ≡ [] };
}

impl<E> Prefix<E> {
    /// Returns a copy. Takes no memory. O(1), and nothing at run time.
    pub fn again(&self) -> Prefix<E>
        ensures { result ≡ self.now }
    {
        Prefix {
            seen: self.seen.again(),
        }
    }

    /// Adds to this prefix the entries that the other one has seen. Takes no memory. O(1), and
    /// nothing at run time.
    pub fn learn(&mut self, other: &Prefix<E>)
        requires one_log { other.now.book ≡ self.old.book }
        ensures same { self.new.book ≡ self.old.book }
        ensures this { IsPrefix self.old.entries self.new.entries }
        ensures that { IsPrefix other.now.entries self.new.entries }
    {
        self.seen.learn(&other.seen);
    }

    // Asks for the entry to be added.
    pub(crate) fn ask(&self, entry: &E) -> Asked<E>
        ensures { result ≡ entry.now }
    {
        Asked {
            offer: self.seen.plain::<Nothing, E, Add>(entry),
        }
    }

    // Sees the log as it is, and returns its length.
    pub(crate) fn observe(&mut self, head: &Word<E, u64, Law>, mut asked: Asked<E>) -> u64
        requires place { head.now ≡ head_of self.old.book }
        ensures same { self.new.book ≡ self.old.book }
        ensures seen { IsPrefix self.old.entries self.new.entries }
        ensures len { result ≡ length self.new.entries }
    {
        head.load::<Look, Nothing>(&mut self.seen, &mut asked.offer)
    }

    // Adds the entry behind all that was seen, if the log is `at` long, and returns whether it was.
    pub(crate) fn add(&mut self, head: &Word<E, u64, Law>, at: u64, mut asked: Asked<E>) -> bool
        requires place { head.now ≡ head_of self.old.book }
        requires room { at < 2 ^ 62 }
        requires within { at ≤ length self.old.entries }
        ensures same { self.new.book ≡ self.old.book }
        ensures made { MatchBool result
            ((self.new.entries ≡ self.old.entries ++ asked ∷ []) × (length self.old.entries ≡ at))
            (IsPrefix self.old.entries self.new.entries) }
    {
        let mut pen = self.seen.no_pen();
        let found = head.compare_exchange::<Add, Nothing>(
            at,
            at + 1,
            &mut self.seen,
            &mut asked.offer,
            &mut pen,
        );
        found == at
    }
}
