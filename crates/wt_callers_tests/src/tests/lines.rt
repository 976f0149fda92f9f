// The line alone: what comes back, in which order, to whom, and what a close does.

use super::compare::{holds, same};
use std::alloc::Global;
use std::process::Abort;
use std::sync::Wait;
use std::test::Fail;
use std::thread;
use std::thread::Threads;
use wt_cache::{Back, JobLine, LinePass, Posted};
use wt_flights::{Landing, Lead};
use wt_keys::Fault;

// A line of loads of numbers.
type Line = JobLine<u64, u64>;

// The lead of a load that no table knows.
fn lead(alloc: Global, id: u64) -> Result<Lead<u64, u64>, Fault> {
    let (_landing, lead) = Landing::start(alloc, id, id, 0)?;
    Ok(lead)
}

// Posts a load: the ids and faults that came back.
fn post<R: Wait>(
    rt: &R,
    alloc: Global,
    line: &Line,
    line_pass: &mut LinePass<u64, u64>,
    id: u64,
) -> Result<Result<Posted, (u64, Fault)>, Fault> {
    let lead = lead(alloc, id)?;
    match line.post(rt, line_pass, lead) {
        Ok(posted) => Ok(Ok(posted)),
        Err(Back { lead, fault }) => Ok(Err((lead.id(), fault))),
    }
}

// Takes a load: its id, or 0 where there is none.
fn take<R: Wait>(rt: &R, line: &Line, line_pass: &mut LinePass<u64, u64>) -> u64 {
    match line.take(rt, line_pass) {
        Some(lead) => lead.id(),
        None => 0,
    }
}

// Posts a load, which the line takes.
fn posts<R: Wait + Abort>(
    rt: &R,
    alloc: Global,
    line: &Line,
    line_pass: &mut LinePass<u64, u64>,
    id: u64,
) -> Result<(), Fault> {
    let posted = post(rt, alloc, line, line_pass, id)?;
    same(
        rt,
        "a load, and its post",
        (id, posted),
        (id, Ok(Posted::Line)),
    );
    Ok(())
}

// Posts a load, which comes back with a fault.
fn comes_back<R: Wait + Abort>(
    rt: &R,
    alloc: Global,
    line: &Line,
    line_pass: &mut LinePass<u64, u64>,
    id: u64,
    fault: Fault,
) -> Result<(), Fault> {
    let posted = post(rt, alloc, line, line_pass, id)?;
    same(
        rt,
        "a load that comes back",
        (id, posted),
        (id, Err((id, fault))),
    );
    Ok(())
}

// Takes a load, by its id, or finds none, which is 0.
fn takes<R: Wait + Abort>(rt: &R, line: &Line, line_pass: &mut LinePass<u64, u64>, id: u64) {
    same(rt, "the load taken, or 0", take(rt, line, line_pass), id);
}

// In a line of two places.
fn post_and_take<R: Wait + Abort>(
    rt: &R,
    alloc: Global,
    line: &Line,
    line_pass: &mut LinePass<u64, u64>,
) -> Result<(), Fault> {
    posts(rt, alloc, line, line_pass, 1)?;
    posts(rt, alloc, line, line_pass, 2)?;
    comes_back(rt, alloc, line, line_pass, 3, Fault::LineFull)?;
    takes(rt, line, line_pass, 1);
    takes(rt, line, line_pass, 2);
    takes(rt, line, line_pass, 0);
    line.close(rt);
    comes_back(rt, alloc, line, line_pass, 4, Fault::LineClosed)
}

#[test]
fn loads_are_taken_in_the_order_of_the_posts(rt: HostRuntime) -> Result<(), Fail> {
    let line = Line::new(rt.alloc(), 2)?;
    let mut line_pass = line.pass(&rt)?;
    post_and_take(&rt, rt.alloc(), &line, &mut line_pass)?;
    Ok(())
}

// Fills a line: each of its places takes a load, one more comes back, and a place that is emptied
// takes it.
fn fills<R: Wait + Abort>(
    rt: &R,
    alloc: Global,
    line: &Line,
    line_pass: &mut LinePass<u64, u64>,
    places: u32,
) -> Result<(), Fault> {
    for id in 1..=u64::from(places) {
        posts(rt, alloc, line, line_pass, id)?;
    }
    let more = u64::from(places).wrapping_add(1);
    comes_back(rt, alloc, line, line_pass, more, Fault::LineFull)?;
    takes(rt, line, line_pass, 1);
    posts(rt, alloc, line, line_pass, more)?;
    for id in 2..=more {
        takes(rt, line, line_pass, id);
    }
    Ok(())
}

#[test]
fn a_line_holds_as_many_loads_as_it_was_made_for(rt: HostRuntime) -> Result<(), Fail> {
    for places in [1, 2, 3, 64, 4096] {
        let line = Line::new(rt.alloc(), places)?;
        let mut line_pass = line.pass(&rt)?;
        fills(&rt, rt.alloc(), &line, &mut line_pass, places)?;
    }
    Ok(())
}

fn close_twice<R: Wait + Abort>(
    rt: &R,
    alloc: Global,
    line: &Line,
    line_pass: &mut LinePass<u64, u64>,
) -> Result<(), Fault> {
    same(rt, "whether a new line is closed", line.is_closed(), false);
    posts(rt, alloc, line, line_pass, 1)?;
    for _ in 0..2 {
        line.close(rt);
        same(
            rt,
            "whether a closed line is closed",
            line.is_closed(),
            true,
        );
    }
    takes(rt, line, line_pass, 1);
    takes(rt, line, line_pass, 0);
    Ok(())
}

#[test]
fn a_closed_line_stays_closed_and_is_taken_from(rt: HostRuntime) -> Result<(), Fail> {
    let line = Line::new(rt.alloc(), 2)?;
    let mut line_pass = line.pass(&rt)?;
    close_twice(&rt, rt.alloc(), &line, &mut line_pass)?;
    Ok(())
}

#[test]
fn a_line_has_1_to_4096_places(rt: HostRuntime) -> Result<(), Fail> {
    let alloc = rt.alloc();
    holds(
        &rt,
        "no line of 0 places",
        matches!(Line::new(alloc, 0), Err(Fault::BadConfig { .. })),
    );
    holds(&rt, "a line of 4096 places", Line::new(alloc, 4096).is_ok());
    holds(
        &rt,
        "no line of 4097 places",
        matches!(Line::new(alloc, 4097), Err(Fault::BadConfig { .. })),
    );
    Ok(())
}

// Posts three loads, the first of this id.
fn post_three<R: Wait>(rt: &R, alloc: Global, line: &Line, first: u64) -> Result<bool, Fault> {
    let mut line_pass = line.pass(rt)?;
    let one = post(rt, alloc, line, &mut line_pass, first)?;
    let two = post(rt, alloc, line, &mut line_pass, first.wrapping_add(1))?;
    let three = post(rt, alloc, line, &mut line_pass, first.wrapping_add(2))?;
    Ok(one.is_ok() && two.is_ok() && three.is_ok())
}

// Takes three loads, within 10,000,000 turns: the bits of their ids.
fn take_three<R: Wait>(rt: &R, line: &Line) -> Result<u64, Fault> {
    let mut line_pass = line.pass(rt)?;
    let mut bits = 0u64;
    let mut taken = 0u32;
    for _ in 0..10_000_000u64 {
        if taken >= 3 {
            return Ok(bits);
        }
        let id = take(rt, line, &mut line_pass);
        if id > 0 && id < 64 && bits & (1u64 << id) == 0 {
            bits |= 1u64 << id;
            taken += 1;
        }
        thread::yield_now();
    }
    Ok(0)
}

// Two threads post the loads 1 to 6, two take three each: the bits of all ids, if each came once.
fn crossed<R: Threads + Wait + Sync>(rt: &R, alloc: Global) -> Result<u64, Fault> {
    let line = Line::new(alloc, 8)?;
    let shared = &line;
    let (posted, taken) = thread::join(
        rt,
        || thread::join(
            rt,
            || post_three(rt, alloc, shared, 1),
            || post_three(rt, alloc, shared, 4),
        ),
        || thread::join(rt, || take_three(rt, shared), || take_three(rt, shared)),
    );
    let (one, two) = taken;
    let (one, two) = (one?, two?);
    let all = posted.0? && posted.1?;
    Ok(if all && one & two == 0 { one | two } else { 0 })
}

#[test]
fn each_load_is_taken_once(rt: HostRuntime) -> Result<(), Fail> {
    same(
        &rt,
        "the bits of the loads taken",
        crossed(&rt, rt.alloc())?,
        0b111_1110,
    );
    Ok(())
}
