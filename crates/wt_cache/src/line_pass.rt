// A caller's pass for the job line, and the rule that all passes keep.
//
// The line is a queue with a rule. The rule speaks of the names of the loads in the line, and of
// the puts and takes of every pass so far. Each put has a number of its own. Each take has the
// number and the name of one put, in the order of the puts. A load that was put and not taken is in
// the line. Every push and every pop keeps the rule, so it holds at each atomic step of every
// schedule.
ghost use Rattle.std.specs.Prelude.{◌≡◌, ◌<◌, [], IfOk};
ghost use Rattle.std.specs.Arc.{arc_value};
ghost use Rattle.crossbeam_queue.specs.Passes.{view as known_by, IsPassOf};
ghost use Rattle.wt_flights.specs.Outcomes.{Leading};
ghost use Rattle.wt_cache.specs.declared.line_view.LineView.{LineView};
ghost use Rattle.wt_cache.specs.Line.{line_view, HasPutOne, HasTakenOne, IsPut, IsTake, Numbered};

use crate::line_view::LineView;
use crossbeam_queue::protocol::{Lesson, Outcome, Protocol, Split};
use crossbeam_queue::{Pass, RuledArrayQueue};
use std::alloc::Global;
use std::marker::Model;
use std::sync::{Arc, Wait};
use wt_flights::Lead;
use wt_keys::NoMemory;

/// The rule of the line.
pub struct Numbers;

impl<K, V> Protocol<Lead<K, V>, LineView<K>> for Numbers {
    ghost holds = { Numbered };

    ghost first = { line_view [] [] };
}

/// The pass after a put: one more put, of the load's name.
pub struct Puts;

impl<K, V> Outcome<Lead<K, V>, LineView<K>> for Puts {
    ghost then = { λ v x w. HasPutOne x v w };
}

impl<K, V> Lesson<Lead<K, V>, LineView<K>> for Puts {
    ghost fact = { λ v items. Unit {0} };
}

/// The pass after a take: one more take, of the load's name.
pub struct Takes;

impl<K, V> Outcome<Lead<K, V>, LineView<K>> for Takes {
    ghost then = { λ v x w. HasTakenOne x v w };
}

impl<K, V> Lesson<Lead<K, V>, LineView<K>> for Takes {
    ghost fact = { λ v items. Unit {0} };
}

// The queue of a line.
pub(crate) type Queue<K, V> = RuledArrayQueue<Lead<K, V>, LineView<K>, Numbers>;

/// A caller's pass for the job line. Contracts see its puts and its takes.
///
/// Each thread has its own; the puts and takes of a pass stay in the line's rule when the pass is
/// dropped.
#[derive(Drop)]
pub struct LinePass<K, V> {
    // The line's queue, which the pass goes by.
    queue: Arc<Queue<K, V>, Global>,
    // The puts and takes of this holder, in the queue's own book.
    pass: Pass<Lead<K, V>, LineView<K>>,
}

impl<K, V> Model for LinePass<K, V> {
    ghost Value = { LineView K };

    ghost view = { λ p. known_by p.pass };

    ghost invariant = { λ p. IsPassOf (arc_value p.queue) p.pass };
}

impl<K: Copy + Drop, V: Drop> LinePass<K, V> {
    // Pushes a load to the queue's end, or returns it if the queue is full.
    pub(crate) fn push<R: Wait>(&mut self, rt: &R, lead: Lead<K, V>) -> Result<(), Lead<K, V>>
        ensures moved { IsPut result (λ back. back) lead self.old self.new }
    {
        self.queue.push_as::<Puts, R>(rt, &mut self.pass, lead)
    }

    // Pops the load at the queue's front, if there is one.
    pub(crate) fn pop<R: Wait>(&mut self, rt: &R) -> Option<Lead<K, V>>
        ensures moved { IsTake result self.old self.new }
    {
        self.queue.pop_as::<Takes, R>(rt, &mut self.pass)
    }
}

/// Cuts a pass that has put and taken nothing off another one, which stays as it is.
pub struct Off;

impl<K> Split<LineView<K>> for Off {
    ghost left = { λ v. v };

    ghost right = { λ v. line_view [] [] };
}

// The first pass of a line, which puts and takes nothing: the others are split off it.
#[derive(Drop)]
pub(crate) struct First<K, V> {
    queue: Arc<Queue<K, V>, Global>,
    pass: Pass<Lead<K, V>, LineView<K>>,
    ghost of: { IsPassOf (arc_value queue) pass × (known_by pass ≡ line_view [] []) },
}

impl<K: Copy + Drop, V: Drop> First<K, V> {
    // Makes the queue of a line, with its first pass.
    pub(crate) fn of_line(alloc: Global, capacity: usize) -> Result<First<K, V>, NoMemory>
        requires { 0 < capacity }
    {
        let (queue, pass) = Queue::<K, V>::ruled(alloc, capacity)?;
        let queue = Arc::new(alloc, queue)?;
        Ok(First { queue, pass })
    }

    // Splits off a pass that has put and taken nothing.
    pub(crate) fn split(&mut self) -> Result<LinePass<K, V>, NoMemory>
        ensures { IfOk result (λ pass. pass ≡ line_view [] []) }
    {
        let queue = Arc::try_clone(&self.queue)?;
        let pass = self.queue.another::<Off>(&mut self.pass);
        Ok(LinePass { queue, pass })
    }
}
