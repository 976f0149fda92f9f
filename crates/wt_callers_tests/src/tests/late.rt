// A line that is closed while loads are posted.

use super::compare::holds;
use std::alloc::Global;
use std::process::Abort;
use std::sync::Wait;
use std::test::Fail;
use std::thread;
use std::thread::Threads;
use wt_cache::{Back, JobLine, Posted};
use wt_flights::Landing;
use wt_keys::Fault;

// A line of loads of numbers.
type Line = JobLine<u64, u64>;

// Posts and takes one load after the other until the line is closed: whether the last post was
// late, and found its load in the line still.
fn posts<R: Wait>(rt: &R, alloc: Global, line: &Line) -> Result<bool, Fault> {
    let mut line_pass = line.pass(rt)?;
    for _ in 0..10_000_000u64 {
        let (_landing, lead) = Landing::start(alloc, 1, 1, 0)?;
        match line.post(rt, &mut line_pass, lead) {
            Ok(Posted::Late) => return Ok(line.take(rt, &mut line_pass).is_some()),
            Ok(Posted::Line) => {
                let _taken = line.take(rt, &mut line_pass);
            }
            Err(Back { fault, .. }) => {
                return if fault == Fault::LineClosed {
                    Ok(false)
                } else {
                    Err(fault)
                };
            }
        }
    }
    Err(Fault::Mixed)
}

// Closes the line after a while.
fn closes<R: Wait>(rt: &R, line: &Line, turns: u64) {
    for _ in 0..turns {
        thread::yield_now();
    }
    line.close(rt);
}

// Returns whether the post beside the close is `Late`.
fn meets<R: Threads + Wait + Sync>(rt: &R, alloc: Global, turns: u64) -> Result<bool, Fault> {
    let line = Line::new(alloc, 1)?;
    let shared = &line;
    let (late, ()) = thread::join(
        rt,
        || posts(rt, alloc, shared),
        || closes(rt, shared, turns),
    );
    late
}

// The first of 20,000 lines at which a post is `Late`, if there is one.
fn first_late<R: Threads + Wait + Sync>(rt: &R, alloc: Global) -> Result<Option<u64>, Fault> {
    for round in 0..20_000u64 {
        if meets(rt, alloc, round % 64)? {
            return Ok(Some(round));
        }
    }
    Ok(None)
}

#[test]
fn a_post_beside_the_close_is_late(rt: HostRuntime) -> Result<(), Fail> {
    let met = first_late(&rt, rt.alloc())?;
    holds(&rt, "a post is late", met.is_some());
    Ok(())
}
