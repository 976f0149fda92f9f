// Stores of a value with a life of its own. Like those that return the first notice with their
// answer, since they nearly always have one.
ghost use Rattle.std.specs.Prelude.{◌≡◌, unwrap_or};
ghost use Rattle.wt_ffi.specs.Tokens.{timed};
ghost use Rattle.wt_ffi.specs.Calls.{keep, put};
ghost use Rattle.wt_ffi.specs.Contract.{IsCall, IsNameCall};
ghost use Rattle.wt_ffi.specs.Handle.{cache_of};
ghost use Rattle.wt_ffi.specs.Shows.{first_left, first_told};

use super::with_notice::{write_first, write_first_name};
use crate::answer::Answer;
use crate::handle::{Handle, TOO_LONG};
use crate::make::make;
use crate::names::{NameLeft, make_named};
use crate::shows::Left;
use crate::text::{Text, name_of};
use crate::token::Token;
use std::alloc::Global;
use wt_core::{Call, Land};

/// Stores the value as `rd_put_with_notice` does. Its entry expires `life` milliseconds after it
/// was written, or earlier by the cache's own durations; with a life of 0 by these alone.
#[unsafe(no_mangle)]
pub extern "C" fn rd_put_for(
    alloc: Global,
    handle: &mut Handle,
    key: u64,
    value: Token,
    life: u32,
    now: u64,
    answer: &mut Answer,
    left: &mut Left,
) -> u64
    ensures made { IsCall (put (timed value life)) key now
        handle.old handle.new answer.old answer.new result }
    ensures first { left.new ≡ unwrap_or (first_left (cache_of handle.new)) left.old }
{
    let number = make(
        alloc,
        handle,
        Call::Put(key, value.living(life), now),
        answer,
    );
    write_first(alloc, handle, left);
    number
}

/// Stores the value under the name as `rd_put_name_with_notice` does, with a life as `rd_put_for`
/// has it.
#[unsafe(no_mangle)]
pub extern "C" fn rd_put_name_for(
    alloc: Global,
    handle: &mut Handle,
    key: &Text,
    value: Token,
    life: u32,
    now: u64,
    answer: &mut Answer,
    left: &mut NameLeft,
) -> u64
    ensures made { IsNameCall (put (timed value life)) key.now now
        handle.old handle.new answer.old answer.new result }
    ensures first { left.new ≡ unwrap_or (first_told key.now handle.new) left.old }
{
    let Some(name) = name_of(key) else {
        return TOO_LONG;
    };
    let number = make_named(
        alloc,
        handle,
        Call::Put(name, value.living(life), now),
        answer,
    );
    write_first_name(alloc, handle, left);
    number
}

/// Closes a load with a value as `rd_land_keep_with_notice` does, with a life as `rd_put_for` has
/// it. The life begins at the landing.
#[unsafe(no_mangle)]
pub extern "C" fn rd_land_for(
    alloc: Global,
    handle: &mut Handle,
    id: u64,
    key: u64,
    value: Token,
    life: u32,
    now: u64,
    answer: &mut Answer,
    left: &mut Left,
) -> u64
    ensures made { IsCall (keep id (timed value life)) key now
        handle.old handle.new answer.old answer.new result }
    ensures first { left.new ≡ unwrap_or (first_left (cache_of handle.new)) left.old }
{
    let number = make(
        alloc,
        handle,
        Call::Land(id, key, Land::Keep(value.living(life)), now),
        answer,
    );
    write_first(alloc, handle, left);
    number
}

/// Closes a load of the name with a value as `rd_land_keep_name_with_notice` does, with a life as
/// `rd_land_for` has it.
#[unsafe(no_mangle)]
pub extern "C" fn rd_land_name_for(
    alloc: Global,
    handle: &mut Handle,
    id: u64,
    key: &Text,
    value: Token,
    life: u32,
    now: u64,
    answer: &mut Answer,
    left: &mut NameLeft,
) -> u64
    ensures made { IsNameCall (keep id (timed value life)) key.now now
        handle.old handle.new answer.old answer.new result }
    ensures first { left.new ≡ unwrap_or (first_told key.now handle.new) left.old }
{
    let Some(name) = name_of(key) else {
        return TOO_LONG;
    };
    let number = make_named(
        alloc,
        handle,
        Call::Land(id, name, Land::Keep(value.living(life)), now),
        answer,
    );
    write_first_name(alloc, handle, left);
    number
}
