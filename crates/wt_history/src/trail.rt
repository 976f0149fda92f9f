// The beginning of a log that was seen, and an entry that is to be added to it.
ghost use Rattle.std.specs.Prelude.{◌≡◌, ◌⊎◌, ◌+◌, ◌<◌, ◌≤◌, ◌^◌, ◌++◌, ◌∷◌, [], length, MatchBool, None, IsTrue, IsFalse};
ghost use mathlib.Core.List.{IsPrefix};
ghost use Rattle.wt_history.specs.Rules.{head_of};

use crate::history::Naming;
use crate::rule::{Add, Law, Nothing};
use logbook::{Offer, Plain, Seen, Word};
use std::marker::{Model, PhantomData};

// A beginning of the log that `J` names: its entries up to some place. It takes the room of one
// word.
#[derive(Drop)]
pub(crate) struct Trail<E, J: Naming> {
    // How many entries these are.
    pub(crate) len: u64,
    pub(crate) seen: Seen<E, u64, Law>,
    pub(crate) of: PhantomData<J>,
}

impl<E, J: Naming> Model for Trail<E, J> {
    ghost use Rattle.std.specs.Prelude.{◌≡◌, List, [], length};

    ghost Value = { List E };

    ghost view = { λ f. f.seen.log };

    ghost invariant = { λ f. (f.seen.book ≡ J.book) × (f.seen.names ≡ [])
        × (f.len ≡ length f.seen.log) };
}

/// An entry that is to be added. It takes no room.
#[derive(Drop)]
pub struct Asked<E> {
    pub(crate) offer: Offer<E, u64, Law, Nothing>,
}

impl<E> Model for Asked<E> {
    ghost use Rattle.std.specs.Prelude.{◌≡◌, [], None};

    ghost Value = { E };

    ghost view = { λ a. a.offer.ask };

    ghost invariant = { λ a. (a.offer.names ≡ []) × (a.offer.state ≡ None) };
}

impl<E, J: Naming> Trail<E, J> {
    // Returns a copy. Takes no memory. O(1).
    pub(crate) fn again(&self) -> Trail<E, J>
        ensures { result ≡ self.now }
    {
        Trail {
            len: self.len,
            seen: self.seen.again(),
            of: PhantomData,
        }
    }

    // Adds to this trail the entries of the other one: it becomes the longer of the two. Takes no
    // memory. O(1).
    pub(crate) fn learn(&mut self, other: &Trail<E, J>)
        ensures this { IsPrefix self.old self.new }
        ensures that { IsPrefix other.now self.new }
        ensures longer { (self.new ≡ self.old) ⊎ (self.new ≡ other.now) }
    {
        // Of two beginnings of one log the shorter begins the longer.
        let mut both = self.seen.again();
        both.learn(&other.seen);
        if self.len < other.len {
            *self = other.again();
        }
    }

    // Returns whether this trail begins with the other one: `false` only if the other one is longer.
    // Takes no memory. O(1).
    pub(crate) fn covers(&self, other: &Trail<E, J>) -> bool
        ensures before { IsTrue result → IsPrefix other.now self.now }
        ensures longer { IsFalse result → length self.now < length other.now }
    {
        let mut both = self.seen.again();
        both.learn(&other.seen);
        other.len <= self.len
    }

    // Asks for an entry to be added, as `D` describes it.
    pub(crate) fn ask<X, D: Plain<X, E, u64>>(&self, about: &X) -> Asked<E>
        requires { D.state about.now ≡ None }
        ensures { result ≡ D.ask about.now }
    {
        Asked {
            offer: self.seen.plain::<Nothing, X, D>(about),
        }
    }

    // Adds the entry behind all that was seen, if the history is `at` long, and returns whether it
    // was.
    pub(crate) fn add(&mut self, head: &Word<E, u64, Law>, at: u64, mut asked: Asked<E>) -> bool
        requires place { head.now ≡ head_of J.book }
        requires room { at < 2 ^ 62 }
        requires within { at ≤ length self.old }
        ensures made { MatchBool result ((self.new ≡ self.old ++ asked ∷ []) × (length self.old ≡ at))
            (IsPrefix self.old self.new) }
    {
        let mut pen = self.seen.no_pen();
        let found = head.compare_exchange::<Add, Nothing>(
            at,
            at + 1,
            &mut self.seen,
            &mut asked.offer,
            &mut pen,
        );
        self.len = if found == at { at + 1 } else { found };
        found == at
    }
}
