// The lender's free list, and the token that makes a caller return its pass.
//
//   a new pass, or one that came back ──► a caller, with a `Loan` ──► take_in ──► `Idle` ──► passes
//
// No code can drop or leak a `Loan`, an `Idle` or a `Returned`. A `Loan` ends in `take_in`, which
// keeps the caller's pass. An `Idle` becomes a `Returned` when the lender ends, and `passes`
// returns all passes that are in it.
ghost use Rattle.std.specs.Prelude.{◌≡◌, ◌≤◌, ◌<◌, ◌+◌, [], false, length, IfErr, IfOk, IsOk, IsTrue, OnErr, OnOk};
ghost use Rattle.wt_cache.specs.Idling.{IsBack, IsLentAgain, none_back};

use std::alloc::Global;
use std::marker::Model;
use wt_core::Notices;
use wt_keys::NoMemory;
use wt_shards::{Books, Pass};

// How many passes shards give out.
const MOST_PASSES: usize = 65_535;

/// The token of a caller that has a pass of the lender: the caller has to return the pass.
pub(crate) struct Loan {
    // Whether that pass came back before.
    again: bool,
}

impl Loan {
    /// The loan of a caller whose pass is new.
    pub(crate) fn first() -> Loan
        ensures { result.again ≡ false }
    {
        Loan { again: false }
    }
}

/// The passes and lists that no caller has at the moment.
pub(crate) struct Idle<K, V, B: Books> {
    passes: Vec<Pass<K, V, B>>,
    lists: Vec<Notices<K, V>>,
    // For how many passes and lists there is room to come back to: for as many as were ever lent.
    room: usize,
    // How many passes came back, each counted once.
    came: usize,
    // How many of them are lent again.
    lent: usize,
}

impl<K, V, B: Books> Model for Idle<K, V, B> {
    ghost use Rattle.std.specs.Prelude.{◌≡◌, ◌+◌, ◌≤◌, length, vec_capacity};
    ghost use Rattle.wt_cache.specs.Idling.{Idling};

    ghost Value = { Idling K V };

    ghost view = { λ i. record { passes = i.passes.items; came = i.came; lent = i.lent } };

    ghost invariant = { λ i. (i.came ≡ length i.passes.items + i.lent)
        × (i.came ≤ i.room) × (i.room ≤ 65535)
        × (i.room ≤ vec_capacity i.passes) × (i.room ≤ vec_capacity i.lists) };
}

impl<K: Drop, V: Drop, B: Books> Idle<K, V, B> {
    /// Nothing yet. Takes no memory.
    pub(crate) fn new(alloc: Global) -> Idle<K, V, B>
        ensures { result ≡ none_back }
    {
        Idle {
            passes: Vec::new(alloc),
            lists: Vec::new(alloc),
            room: 0,
            came: 0,
            lent: 0,
        }
    }

    /// Returns an empty list for `room` notices: one that came back, or a new one.
    pub(crate) fn list(&mut self, alloc: Global, room: usize) -> Result<Notices<K, V>, NoMemory>
        ensures found { IfOk result (λ list. (list.list ≡ []) × (room ≤ list.room)) }
        ensures same { self.new ≡ self.old }
    {
        if let Some(mut list) = self.lists.pop() {
            // For the prover: shows that it is empty and has the room, as each that came back.
            list.empty();
            if list.has_room(room) {
                return Ok(list);
            }
        }
        Notices::new(alloc, room)
    }

    /// Lends a pass that came back. Where there is none, makes the room for one more.
    pub(crate) fn pass(&mut self) -> Result<Option<(Pass<K, V, B>, Loan)>, NoMemory>
        ensures found { IfOk result (λ found. IsLentAgain found self.old self.new) }
        ensures err { OnErr result (self.new ≡ self.old) }
    {
        if let Some(pass) = self.passes.pop() {
            self.lent += 1;
            return Ok(Some((pass, Loan { again: true })));
        }
        let room = if self.room < MOST_PASSES {
            self.room + 1
        } else {
            self.room
        };
        self.passes.reserve(room)?;
        self.lists.reserve(room)?;
        self.room = room;
        Ok(None)
    }

    /// Takes back a caller's pass and list. `pass` made the room, so that neither push takes
    /// memory.
    ///
    /// Each loan was counted, or has its room, so the numbers agree with it. The types can't say so:
    /// if they didn't agree, the pass would be returned, and nothing changed.
    pub(crate) fn take_in(
        &mut self,
        loan: Loan,
        pass: Pass<K, V, B>,
        left: Notices<K, V>,
    ) -> Result<(), Pass<K, V, B>>
        ensures back { OnOk result (IsBack loan.again pass self.old self.new) }
        ensures succeeds { IsTrue loan.again → 0 < self.old.lent → IsOk result }
        ensures err { IfErr result (λ again. (again ≡ pass) × (self.new ≡ self.old)) }
    {
        let Loan { again } = loan;
        let agrees = if again {
            self.lent > 0
        } else {
            self.came < self.room
        };
        if !agrees {
            return Err(pass);
        }
        if again {
            self.lent -= 1;
        } else {
            self.came += 1;
        }
        self.passes.push_reserved(pass);
        let _ = self.lists.push(left);
        Ok(())
    }
}

/// The passes that came back to a lender of callers, once it has ended, for `settle`.
///
/// It can't be dropped, so that no pass is lost unseen: `passes` ends it.
pub struct Returned<K, V, B: Books> {
    idle: Idle<K, V, B>,
}

impl<K, V, B: Books> Model for Returned<K, V, B> {
    ghost use Rattle.wt_cache.specs.Idling.{Idling};

    ghost Value = { Idling K V };

    ghost view = { λ r. r.idle };
}

impl<K: Drop, V: Drop, B: Books> Returned<K, V, B> {
    /// Keeps the passes that are idle at the end.
    pub(crate) fn of(idle: Idle<K, V, B>) -> Returned<K, V, B>
        ensures state { result ≡ idle }
        ensures back { idle.came ≡ length idle.passes + idle.lent }
    {
        // For the prover: shows `back`.
        let _came = idle.came;
        Returned { idle }
    }

    /// Returns how many passes came back at least once. O(1).
    pub fn came(&self) -> usize
        ensures { result ≡ self.now.came }
    {
        self.idle.came
    }

    /// Returns how many of them are lent again: 0, since each caller was given back. No clause says
    /// that it is 0. O(1).
    pub fn lent(&self) -> usize
        ensures { result ≡ self.now.lent }
    {
        self.idle.lent
    }

    /// Returns all passes that came back and aren't lent again, for `settle`. Takes no memory.
    pub fn passes(self) -> Vec<Pass<K, V, B>>
        ensures { result.items ≡ self.passes }
    {
        let Returned { idle } = self;
        let Idle {
            passes: returned,
            lists: _,
            room: _,
            came: _,
            lent: _,
        } = idle;
        returned
    }
}
