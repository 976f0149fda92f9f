// One thread that reads and changes the value in turn.
use super::OPENING;
use super::compare::same;
use std::test::Fail;
use wt_stripes::{Exclusive, Striped};

// By the main lock, then by each stripe, and by the one of the remainder.
#[test]
fn each_read_shows_the_last_change(rt: HostRuntime) -> Result<(), Fail> {
    let lock = Striped::new(rt.alloc(), 0u64)?;
    for number in 1..4u64 {
        *lock.write(&rt).value(&rt) = number;
        for stripe in 0..6usize {
            for _ in 0..OPENING {
                same(&rt, "read", *lock.read(&rt, stripe), number);
            }
        }
    }
    same(&rt, "taken out", lock.into_inner(&rt), 3);
    Ok(())
}

#[test]
fn the_value_is_taken_out_of_open_stripes(rt: HostRuntime) -> Result<(), Fail> {
    let lock = Striped::new(rt.alloc(), 7u64)?;
    super::open(&rt, &lock);
    same(&rt, "taken out", lock.into_inner(&rt), 7);
    Ok(())
}

#[test]
fn an_exclusive_value_comes_out_as_it_went_in(rt: HostRuntime) -> Result<(), Fail> {
    let mut pair = Exclusive::new((7u64, 8u64));
    let inside = &mut pair;
    inside.value.1 = 9;
    same(&rt, "taken out", pair.into_inner(), (7, 9));
    Ok(())
}
