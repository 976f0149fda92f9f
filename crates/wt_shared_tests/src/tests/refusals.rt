// Calls and peeks that are refused: a bad configuration, and a share without memory.
use super::compare::{holds, same};
use super::{LoadedCaller, limits};
use std::cell::Cell;
use std::process::Abort;
use std::test::Fail;
use wt_core::{Call, Config, Reply};
use wt_keys::{Fault, Field};
use wt_shared::{Caller, Unmade};
use wt_tests::{Fussy, counter};

#[test]
fn a_bad_configuration_opens_no_cache(rt: HostRuntime) {
    let wide = Config {
        window: 5,
        ..limits(None)
    };
    let opened: Result<LoadedCaller, Fault> = Caller::open(rt.alloc(), &wide);
    same(
        &rt,
        "the fault",
        opened.err(),
        Some(Fault::BadConfig {
            field: Field::Window,
        }),
    );
}

// Peeks and looks while the first share is refused, and again while none is.
fn expect_refusals(rt: &impl Abort, caller: &mut Caller<u64, Fussy>, left: &Cell<u32>) {
    left.set(1);
    holds(
        rt,
        "a peek is refused",
        matches!(caller.peek(1, 0), Err(Unmade::NoMemory)),
    );
    holds(
        rt,
        "the next one finds the value",
        matches!(caller.peek(1, 0), Ok(Some(_))),
    );
    left.set(1);
    holds(
        rt,
        "a look is refused",
        matches!(caller.call(Call::Look(1, 0)), Err(Unmade::NoMemory)),
    );
    same(rt, "a refused look has no number", caller.number(), 1);
    holds(
        rt,
        "the next one hits",
        matches!(caller.call(Call::Look(1, 0)), Ok(Reply::Hit(_))),
    );
    same(rt, "its number", caller.number(), 2);
}

#[test]
fn a_refused_share_leaves_the_cache(rt: HostRuntime) -> Result<(), Fail> {
    let left = counter(rt.alloc())?;
    let mut caller: Caller<u64, Fussy> = Caller::open(rt.alloc(), &limits(None))?;
    let value = Fussy::new(5, left.clone()?);
    holds(
        &rt,
        "the put",
        matches!(caller.call(Call::Put(1, value, 0)), Ok(Reply::Stored)),
    );
    expect_refusals(&rt, &mut caller, &left);
    Ok(())
}
