// The line of loads that wait for a worker.
//
// A caller whose seek opened a load may post its lead here and wait; a worker takes it and runs the
// load. The line is open until it is closed, once and for good. A poster reads the closing mark
// before the push and after it. If it finds the mark set after the push, no worker may be left: so
// it runs the loads in the line itself.
//
//   worker   look for a while ── lock the bell ── look again ── sleep, giving the lock back ──► look
//   poster   push ── lock the bell ── wake one worker
//   closer   lock the bell ── mark ── wake all workers
//
// A worker first looks for some 20 microseconds, since a sleep and a wake take as long. It looks for
// the last time under the bell's lock, which a poster takes after its push. A push that this look
// missed is rung once the worker sleeps, so it isn't slept through. The closer marks under the same
// lock, so it can't set the mark between a worker's last look and its look at the mark. In
// whichever order a worker makes the two, its poster runs each load that it leaves behind.
ghost use Rattle.std.specs.Prelude.{◌≡◌, ◌≤◌, [], IfOk, IfErr, Err, IsOkUnless};
ghost use Rattle.wt_keys.specs.declared.fault.Fault.TheVariants as fault;
ghost use Rattle.wt_keys.specs.declared.fault.Field.TheVariants as field;
ghost use Rattle.wt_cache.specs.Line.{line_view, IsNoCapacity, IsPostFault, IsPut, IsTake};

use crate::line_pass::{First, LinePass};
use std::alloc::Global;
use std::sync::atomic::{AtomicBool, Ordering};
use std::sync::{Condvar, Mutex, Wait};
use wt_flights::{LOOKS, Lead, pause};
use wt_keys::{Fault, Field, NoMemory};

// The most places that a line may have: for as many loads as may be open in one shard.
const MOST_PLACES: u32 = 4096;

/// Whether the line was open still when a load was put into it.
#[derive(Clone, Copy, Debug, PartialEq, Eq)]
pub enum Posted {
    /// It was open after the put: a worker finds the load.
    Line,
    /// It was closed by then: the poster is to take loads off and run them until there is none.
    Late,
}

/// A load that wasn't put into the line, and why.
#[derive(Drop)]
pub struct Back<K, V> {
    /// The lead of the post. Its holder has to run the load.
    pub lead: Lead<K, V>,
    /// `LineFull` or `LineClosed`.
    pub fault: Fault,
}

/// A line of loads that are to be run by workers.
#[derive(Drop)]
pub struct JobLine<K, V> {
    // The pass that the others are split off, with the queue.
    first: Mutex<First<K, V>>,
    // Set by `close`, for good.
    closed: AtomicBool,
    // The bell's lock. It guards no value.
    gate: Mutex<()>,
    // The bell's signal.
    rung: Condvar,
    // For the lists of the posters.
    alloc: Global,
}

impl<K: Copy + Drop, V: Drop> JobLine<K, V> {
    /// Makes an open, empty line with places for `capacity` loads, 1 to 4,096.
    ///
    /// `BadConfig` of the line before memory is asked for. All its memory is taken here.
    /// O(capacity).
    ///
    /// In use: `uses::lines::new`.
    pub fn new(alloc: Global, capacity: u32) -> Result<JobLine<K, V>, Fault>
        ensures refusal { IsNoCapacity capacity → result ≡ Err (fault.BadConfig field.Line) }
        ensures memory { 1 ≤ capacity → capacity ≤ 4096 → IsOkUnless result fault.NoMemory }
    {
        if capacity < 1 || MOST_PLACES < capacity {
            return Err(Fault::BadConfig { field: Field::Line });
        }
        let Ok(first) = First::of_line(alloc, capacity as usize) else {
            return Err(Fault::NoMemory);
        };
        Ok(JobLine {
            first: Mutex::new(first),
            closed: AtomicBool::new(false),
            gate: Mutex::new(()),
            rung: Condvar::new(),
            alloc,
        })
    }

    /// Makes a pass of this line that has put and taken nothing.
    ///
    /// `NoMemory` only if a further owner of the queue is refused. Takes the lock of the line's
    /// first pass.
    pub fn pass<R: Wait>(&self, rt: &R) -> Result<LinePass<K, V>, NoMemory>
        ensures { IfOk result (λ pass. pass ≡ line_view [] []) }
    {
        self.first.lock(rt).split()
    }

    /// Puts a load at the end of the line, or returns its lead.
    ///
    /// Returns `Line` if the line was open still after the put, and wakes a worker if one sleeps;
    /// `Late` if it was closed by then. `LineClosed` comes before `LineFull`. The pass is to be
    /// one of this line: it goes by its own queue. Takes no memory, and after the put the lock of
    /// the line's bell. That anyone takes the load is not promised.
    pub fn post<R: Wait>(
        &self,
        rt: &R,
        pass: &mut LinePass<K, V>,
        lead: Lead<K, V>,
    ) -> Result<Posted, Back<K, V>>
        ensures moved { IsPut result (λ back. back.lead) lead pass.old pass.new }
        ensures faults { IfErr result (λ back. IsPostFault back.fault) }
    {
        if self.is_closed() {
            let fault = Fault::LineClosed;
            return Err(Back { lead, fault });
        }
        if let Err(lead) = pass.push(rt, lead) {
            let fault = Fault::LineFull;
            return Err(Back { lead, fault });
        }
        if self.is_closed() {
            return Ok(Posted::Late);
        }
        let gate = self.gate.lock(rt);
        self.rung.notify_one();
        drop(gate);
        Ok(Posted::Line)
    }

    /// Takes the load that stands first in the line, or `None` if there is none.
    ///
    /// The caller is to run it. A closed line is taken from like an open one. Takes no memory and
    /// no lock.
    pub fn take<R: Wait>(&self, rt: &R, pass: &mut LinePass<K, V>) -> Option<Lead<K, V>>
        ensures moved { IsTake result pass.old pass.new }
    {
        pass.pop(rt)
    }

    // Takes the load that stands first in the line, or `None` if there was none for a while.
    fn take_soon<R: Wait>(&self, rt: &R, pass: &mut LinePass<K, V>) -> Option<Lead<K, V>>
        ensures moved { IsTake result pass.old pass.new }
    {
        for turn in 0..LOOKS {
            if let Some(lead) = self.take(rt, pass) {
                return Some(lead);
            }
            pause(turn);
        }
        None
    }

    // Takes the load that stands first in the line, and sleeps as long as there is none. `None` once
    // the line is closed and a take found none.
    pub(crate) fn next<R: Wait>(&self, rt: &R, pass: &mut LinePass<K, V>) -> Option<Lead<K, V>>
        ensures moved { IsTake result pass.old pass.new }
    {
        if let Some(lead) = self.take_soon(rt, pass) {
            return Some(lead);
        }
        let mut gate = self.gate.lock(rt);
        for _ in rt.forever() {
            if let Some(lead) = self.take(rt, pass) {
                return Some(lead);
            }
            if self.is_closed() {
                return None;
            }
            gate = self.rung.wait(rt, gate);
        }
        unreachable!()
    }

    /// Closes the line, for good, and wakes the workers that sleep. A later post gets its lead
    /// back, and a worker ends once it finds nothing more. Takes no memory, and the lock of the
    /// line's bell.
    ///
    /// In use: `uses::lines::close`.
    pub fn close<R: Wait>(&self, rt: &R) {
        let gate = self.gate.lock(rt);
        self.closed.store(true, Ordering::SeqCst);
        self.rung.notify_all();
        drop(gate);
    }

    /// Returns whether the line is closed. Takes no lock. The result may be out of date at once.
    pub fn is_closed(&self) -> bool {
        self.closed.load(Ordering::SeqCst)
    }

    // The allocator that the line was made with.
    pub(crate) fn alloc(&self) -> Global {
        self.alloc
    }
}
