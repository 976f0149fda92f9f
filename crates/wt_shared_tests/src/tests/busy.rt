// A call, a peek and a reading of the numbers are busy while another call is at work, and only then.
use super::compare::same;
use super::limits;
use std::alloc::Global;
use std::sync::{Arc, Wait};
use std::test::Fail;
use std::thread;
use std::thread::Threads;
use wt_core::{Call, Reply};
use wt_keys::Fault;
use wt_shared::{Caller, Unmade};
use wt_tests::{Gate, Gated};

type Guest = Caller<u64, Gated>;

// Whether the key is there.
fn looks(caller: &mut Guest, key: u64) -> Result<bool, Unmade> {
    match caller.call(Call::Look(key, 0)) {
        Ok(reply) => Ok(matches!(reply, Reply::Hit(_))),
        Err(why) => Err(why),
    }
}

fn peeks(caller: &mut Guest, key: u64) -> Result<bool, Unmade> {
    match caller.peek(key, 0) {
        Ok(found) => Ok(found.is_some()),
        Err(why) => Err(why),
    }
}

// The number of steps so far.
fn steps(caller: &mut Guest) -> Result<u64, Unmade> {
    match caller.numbers() {
        Ok(numbers) => Ok(numbers.step),
        Err(why) => Err(why),
    }
}

// Of a look and of a peek at another key, and of a reading, once the gate is reached: what they
// returned, and the caller's number. Then opens the gate.
type Beside = (
    bool,
    Result<bool, Unmade>,
    Result<bool, Unmade>,
    Result<u64, Unmade>,
    u64,
);

fn calls_beside(caller: &mut Guest, gate: &Gate) -> Beside {
    let begun = gate.begins();
    let look = looks(caller, 2);
    let peek = peeks(caller, 2);
    let read = steps(caller);
    gate.open();
    (begun, look, peek, read, caller.number())
}

// One thread looks at the gated value, or peeks at it, and another one calls meanwhile.
fn at_once<R: Threads + Wait + Sync>(
    rt: &R,
    first: &mut Guest,
    second: &mut Guest,
    gate: &Gate,
    is_peek: bool,
) -> (Result<bool, Unmade>, Beside) {
    thread::join(
        rt,
        || {
            if is_peek {
                peeks(first, 1)
            } else {
                looks(first, 1)
            }
        },
        || calls_beside(second, gate),
    )
}

// What the two threads saw; and then what the second caller's look returned, its number, and the
// number of steps.
type Seen = (
    Result<bool, Unmade>,
    Beside,
    Result<bool, Unmade>,
    u64,
    Result<u64, Unmade>,
);

fn see<R: Threads + Wait + Sync>(rt: &R, alloc: Global, is_peek: bool) -> Result<Seen, Fault> {
    let gate = Gate::new(alloc)?;
    let gated = Gated::by(Arc::try_clone(&gate)?);
    let mut first: Guest = Caller::open(alloc, &limits(None))?;
    let mut second = first.another(alloc)?;
    if first.call(Call::Put(1, gated, 0)).is_err() {
        return Err(Fault::NoMemory);
    }
    let (found, beside) = at_once(rt, &mut first, &mut second, &gate, is_peek);
    let later = looks(&mut second, 2);
    let read = steps(&mut second);
    Ok((found, beside, later, second.number(), read))
}

#[test]
fn a_call_beside_a_look_is_busy(rt: HostRuntime) -> Result<(), Fail> {
    let busy = Err(Unmade::Busy);
    let beside = (true, busy, busy, Err(Unmade::Busy), 0);
    let want = (Ok(true), beside, Ok(false), 3, Ok(3));
    same(
        &rt,
        "the look, the calls beside it, and a look behind it",
        see(&rt, rt.alloc(), false)?,
        want,
    );
    Ok(())
}

#[test]
fn a_call_beside_a_peek_is_busy(rt: HostRuntime) -> Result<(), Fail> {
    let busy = Err(Unmade::Busy);
    let beside = (true, busy, busy, Err(Unmade::Busy), 0);
    let want = (Ok(true), beside, Ok(false), 2, Ok(2));
    same(
        &rt,
        "the peek, the calls beside it, and a look behind it",
        see(&rt, rt.alloc(), true)?,
        want,
    );
    Ok(())
}
