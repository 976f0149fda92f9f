// Stores of a value with a life of its own on a shared cache, by number and by name.
ghost use Rattle.wt_ffi.specs.Tokens.{timed};
ghost use Rattle.wt_ffi.specs.Calls.{keep, put};
ghost use Rattle.wt_ffi.specs.Sharing.{IsSharedCall, IsSharedNameCall};

use crate::answer::Answer;
use crate::handle::TOO_LONG;
use crate::shared::handle::SharedHandle;
use crate::shared::make::make_shared;
use crate::shared::names::make_shared_named;
use crate::text::{Text, name_of};
use crate::token::Token;
use std::alloc::Global;
use wt_core::{Call, Land};

/// Stores the value as `rd_shared_put` does. Its entry expires `life` milliseconds after it was
/// written, or earlier by the cache's own durations; with a life of 0 by these alone.
#[unsafe(no_mangle)]
pub extern "C" fn rd_shared_put_for(
    alloc: Global,
    handle: &mut SharedHandle,
    key: u64,
    value: Token,
    life: u32,
    now: u64,
    answer: &mut Answer,
) -> u64
    ensures made { IsSharedCall (put (timed value life) key now)
        handle.old handle.new answer.old answer.new result }
{
    make_shared(
        alloc,
        handle,
        Call::Put(key, value.living(life), now),
        answer,
    )
}

/// Stores the value under the name as `rd_shared_put_name` does, with a life as `rd_shared_put_for`
/// has it.
#[unsafe(no_mangle)]
pub extern "C" fn rd_shared_put_name_for(
    alloc: Global,
    handle: &mut SharedHandle,
    key: &Text,
    value: Token,
    life: u32,
    now: u64,
    answer: &mut Answer,
) -> u64
    ensures made { IsSharedNameCall (λ k. put (timed value life) k now) key.now
        handle.old handle.new answer.old answer.new result }
{
    let Some(name) = name_of(key) else {
        return TOO_LONG;
    };
    make_shared_named(
        alloc,
        handle,
        Call::Put(name, value.living(life), now),
        answer,
    )
}

/// Closes a load with a value as `rd_shared_land_keep` does, with a life as `rd_shared_put_for` has
/// it. The life begins at the landing.
#[unsafe(no_mangle)]
pub extern "C" fn rd_shared_land_for(
    alloc: Global,
    handle: &mut SharedHandle,
    id: u64,
    key: u64,
    value: Token,
    life: u32,
    now: u64,
    answer: &mut Answer,
) -> u64
    ensures made { IsSharedCall (keep id (timed value life) key now)
        handle.old handle.new answer.old answer.new result }
{
    make_shared(
        alloc,
        handle,
        Call::Land(id, key, Land::Keep(value.living(life)), now),
        answer,
    )
}

/// Closes a load of the name with a value as `rd_shared_land_keep_name` does, with a life as
/// `rd_shared_land_for` has it.
#[unsafe(no_mangle)]
pub extern "C" fn rd_shared_land_name_for(
    alloc: Global,
    handle: &mut SharedHandle,
    id: u64,
    key: &Text,
    value: Token,
    life: u32,
    now: u64,
    answer: &mut Answer,
) -> u64
    ensures made { IsSharedNameCall (λ k. keep id (timed value life) k now) key.now
        handle.old handle.new answer.old answer.new result }
{
    let Some(name) = name_of(key) else {
        return TOO_LONG;
    };
    make_shared_named(
        alloc,
        handle,
        Call::Land(id, name, Land::Keep(value.living(life)), now),
        answer,
    )
}
