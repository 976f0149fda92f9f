// Refused memory and refused shares: what is refused changes nothing, and goes well when it is
// tried again. No step leaks a value.
use super::compare::same;
use super::{Run, caps};
use std::alloc::Global;
use std::cell::Cell;
use std::process::Abort;
use std::rc::Rc;
use std::test::Fail;
use wt_keys::{Fault, NoMemory};
use wt_regions::{Caps, Region};
use wt_tests::{Fussy, counter};

// A call of the regions, which know no loads.
#[derive(Clone, Copy)]
enum Step {
    Put,
    Look,
}

// All that can be seen of the regions.
#[derive(Drop, PartialEq, Eq, Debug)]
struct Seen {
    window: Vec<u64>,
    probation: Vec<u64>,
    protected: Vec<u64>,
    len: usize,
    weight: u64,
    notices: usize,
    // For each key at each of some moments, whether it is there unexpired.
    alive: [[bool; 8]; 8],
}

impl Run<Fussy> {
    fn seen(&self, alloc: Global) -> Result<Seen, NoMemory> {
        let mut alive = [[false; 8]; 8];
        for (key, row) in alive.iter_mut().enumerate() {
            for (turn, cell) in row.iter_mut().enumerate() {
                *cell = self.regions.has(key as u64, 25 * turn as u64);
            }
        }
        Ok(Seen {
            window: self.regions.order(alloc, Region::Window)?,
            probation: self.regions.order(alloc, Region::Probation)?,
            protected: self.regions.order(alloc, Region::Protected)?,
            len: self.regions.len(),
            weight: self.regions.weight(),
            notices: self.notices.list().len(),
            alive,
        })
    }

    // Where the first is refused memory it is made once more.
    fn seen_at_last(&self, alloc: Global) -> Result<Seen, NoMemory> {
        match self.seen(alloc) {
            Ok(seen) => Ok(seen),
            Err(_) => self.seen(alloc),
        }
    }

    fn forget_notices(&mut self) {
        self.notices.empty();
    }

    fn run_step(&mut self, step: Step, key: u64, value: Fussy, now: u64) -> Result<(), Fault> {
        match step {
            Step::Put => self.put(key, value, now),
            Step::Look => {
                self.look(key, now)?;
                Ok(())
            }
        }
    }
}

// A step, its key and moment, and how many shares it asks for.
type Row = (Step, u64, u64, u32);

// Each step with the number of shares that it asks for, with ample memory. Entries 5, window 1:
// main 4, protected 3. Values expire 100 ms after they were written.
fn steps() -> [Row; 24] {
    [
        // window fills, and gives up candidates to probation
        (Step::Put, 1, 0, 0),
        (Step::Put, 2, 0, 1),
        (Step::Put, 3, 0, 1),
        (Step::Put, 4, 0, 1),
        (Step::Put, 5, 0, 1),
        // hits in window, in probation with room above, in protected, and with protected full
        (Step::Look, 5, 10, 1),
        (Step::Look, 1, 10, 2),
        (Step::Look, 2, 10, 2),
        (Step::Look, 3, 10, 2),
        (Step::Look, 1, 10, 1),
        (Step::Look, 4, 20, 3),
        (Step::Look, 7, 20, 0),
        // a candidate that loses against its victim, and one that wins
        (Step::Put, 6, 20, 0),
        (Step::Put, 2, 20, 1),
        (Step::Look, 6, 20, 1),
        (Step::Look, 6, 20, 1),
        (Step::Put, 7, 30, 1),
        // values that take the place of others, in each region
        (Step::Put, 7, 30, 0),
        (Step::Put, 6, 30, 1),
        (Step::Put, 1, 30, 1),
        // own expired entries in probation and protected, with a candidate that isn't and one that
        // is
        (Step::Put, 4, 110, 1),
        (Step::Put, 2, 125, 1),
        (Step::Put, 6, 230, 0),
        (Step::Put, 7, 230, 1),
    ]
}

// Makes a step that is refused this share of its value, and returns whether it asked for it. Then
// it changed nothing.
fn is_refused(
    rt: &impl Abort,
    alloc: Global,
    run: &mut Run<Fussy>,
    left: &Rc<Cell<u32>>,
    (version, row): (usize, Row),
    share: u32,
) -> Result<bool, Fail> {
    let (step, key, now, _) = row;
    left.set(0);
    run.forget_notices();
    let before = run.seen_at_last(alloc)?;
    left.set(share);
    let value = Fussy::new(version as u64, left.clone()?);
    let Err(fault) = run.run_step(step, key, value, now) else {
        return Ok(false);
    };
    same(rt, "the fault of a refused share", fault, Fault::NoMemory);
    let after = run.seen_at_last(alloc)?;
    same(
        rt,
        "all that is seen, by step and refused share",
        (version, share, after),
        (version, share, before),
    );
    Ok(true)
}

fn refuse_steps(
    rt: &impl Abort,
    alloc: Global,
    run: &mut Run<Fussy>,
    left: &Rc<Cell<u32>>,
) -> Result<(), Fail> {
    for (version, row) in steps().into_iter().enumerate() {
        let mut refused = 0;
        // The first share is refused, then the second, until the step goes well.
        for share in 1..8 {
            if !is_refused(rt, alloc, run, left, (version, row), share)? {
                break;
            }
            refused = share;
        }
        left.set(0);
        let shares = row.3;
        same(
            rt,
            "a step, and how many of its shares were refused",
            (version, refused.min(shares)),
            (version, shares),
        );
        // Each value that is held or told of owns the counter once, and nothing else does.
        let values = run.regions.len().saturating_add(run.notices.list().len());
        let owners = values.saturating_add(1);
        same(
            rt,
            "a step, and the owners of the counter",
            (version, Rc::strong_count(left)),
            (version, owners),
        );
    }
    Ok(())
}

#[test]
fn a_refused_step_changes_nothing(rt: HostRuntime) -> Result<(), Fail> {
    let limits = Caps {
        after_write: Some(100),
        ..caps(5, 1, 1000)
    };
    let left = counter(rt.alloc())?;
    let mut run = match Run::new(rt.alloc(), limits) {
        Ok(run) => run,
        Err(_) => Run::new(rt.alloc(), limits)?,
    };
    refuse_steps(&rt, rt.alloc(), &mut run, &left)
}
