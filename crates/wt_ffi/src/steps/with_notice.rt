// The calls that nearly always have a notice: they return the first one with their answer.
ghost use Rattle.std.specs.Prelude.{◌≡◌, unwrap_or};
ghost use Rattle.wt_core.specs.declared.calls.Call.TheVariants.{DropKey};
ghost use Rattle.wt_ffi.specs.Tokens.{timed};
ghost use Rattle.wt_ffi.specs.Calls.{keep, put};
ghost use Rattle.wt_ffi.specs.Contract.{IsCall, IsNameCall};
ghost use Rattle.wt_ffi.specs.Handle.{cache_of};
ghost use Rattle.wt_ffi.specs.Shows.{first_left, first_name_left, first_told};

use crate::answer::Answer;
use crate::handle::{Handle, TOO_LONG};
use crate::make::make;
use crate::names::{NameLeft, make_named, name_left_of};
use crate::opened::Opened;
use crate::shows::{Left, left_of};
use crate::text::{Text, name_of};
use crate::token::Token;
use std::alloc::Global;
use wt_core::{Call, Land};

// Writes the notice that was found, if there was one.
#[inline(always)]
fn write<L: Copy>(found: Option<L>, left: &mut L)
    ensures { left.new ≡ unwrap_or found left.old }
{
    if let Some(found) = found {
        *left = found;
    }
}

// Writes the first notice of the latest call on a cache of numbers, if it has one.
#[inline(always)]
pub(super) fn write_first(alloc: Global, handle: &mut Handle, left: &mut Left)
    ensures first { left.new ≡ unwrap_or (first_left (cache_of handle.old)) left.old }
    ensures same { cache_of handle.new ≡ cache_of handle.old }
{
    let Some(opened) = handle.take(alloc) else {
        return;
    };
    if let Opened::Numbers(cache) = &*opened {
        write(cache.notices.list().get(0).map(left_of), left);
    }
    handle.give(opened);
}

// Writes the first notice of the latest call on a cache of names, if it has one.
#[inline(always)]
pub(super) fn write_first_name(alloc: Global, handle: &mut Handle, left: &mut NameLeft)
    ensures first { left.new ≡ unwrap_or (first_name_left (cache_of handle.old)) left.old }
    ensures same { cache_of handle.new ≡ cache_of handle.old }
{
    let Some(opened) = handle.take(alloc) else {
        return;
    };
    if let Opened::Names(cache) = &*opened {
        write(cache.notices.list().get(0).map(name_left_of), left);
    }
    handle.give(opened);
}

/// Stores the value as `rd_put` does, and writes the first notice, if there is one.
///
/// If there is none `left` stays as it was.
#[unsafe(no_mangle)]
pub extern "C" fn rd_put_with_notice(
    alloc: Global,
    handle: &mut Handle,
    key: u64,
    value: Token,
    now: u64,
    answer: &mut Answer,
    left: &mut Left,
) -> u64
    ensures made { IsCall (put (timed value 0)) key now handle.old handle.new answer.old answer.new result }
    ensures first { left.new ≡ unwrap_or (first_left (cache_of handle.new)) left.old }
{
    let number = make(alloc, handle, Call::Put(key, value.lasting(), now), answer);
    write_first(alloc, handle, left);
    number
}

/// Stores the value as `rd_put_name` does, and writes the first notice, if there is one.
///
/// If there is none `left` stays as it was.
#[unsafe(no_mangle)]
pub extern "C" fn rd_put_name_with_notice(
    alloc: Global,
    handle: &mut Handle,
    key: &Text,
    value: Token,
    now: u64,
    answer: &mut Answer,
    left: &mut NameLeft,
) -> u64
    ensures made { IsNameCall (put (timed value 0)) key.now now
        handle.old handle.new answer.old answer.new result }
    ensures first { left.new ≡ unwrap_or (first_told key.now handle.new) left.old }
{
    let Some(name) = name_of(key) else {
        return TOO_LONG;
    };
    let number = make_named(alloc, handle, Call::Put(name, value.lasting(), now), answer);
    write_first_name(alloc, handle, left);
    number
}

/// Closes a load with a value as `rd_land_keep` does, and writes the first notice, if there is one.
///
/// If there is none `left` stays as it was.
#[unsafe(no_mangle)]
pub extern "C" fn rd_land_keep_with_notice(
    alloc: Global,
    handle: &mut Handle,
    id: u64,
    key: u64,
    value: Token,
    now: u64,
    answer: &mut Answer,
    left: &mut Left,
) -> u64
    ensures made { IsCall (keep id (timed value 0)) key now
        handle.old handle.new answer.old answer.new result }
    ensures first { left.new ≡ unwrap_or (first_left (cache_of handle.new)) left.old }
{
    let number = make(
        alloc,
        handle,
        Call::Land(id, key, Land::Keep(value.lasting()), now),
        answer,
    );
    write_first(alloc, handle, left);
    number
}

/// Closes a load with a value as `rd_land_keep_name` does, and writes the first notice, if there is one.
///
/// If there is none `left` stays as it was.
#[unsafe(no_mangle)]
pub extern "C" fn rd_land_keep_name_with_notice(
    alloc: Global,
    handle: &mut Handle,
    id: u64,
    key: &Text,
    value: Token,
    now: u64,
    answer: &mut Answer,
    left: &mut NameLeft,
) -> u64
    ensures made { IsNameCall (keep id (timed value 0)) key.now now
        handle.old handle.new answer.old answer.new result }
    ensures first { left.new ≡ unwrap_or (first_told key.now handle.new) left.old }
{
    let Some(name) = name_of(key) else {
        return TOO_LONG;
    };
    let number = make_named(
        alloc,
        handle,
        Call::Land(id, name, Land::Keep(value.lasting()), now),
        answer,
    );
    write_first_name(alloc, handle, left);
    number
}

/// Takes the entry out as `rd_drop_key` does, and writes the first notice, if there is one.
///
/// If there is none `left` stays as it was.
#[unsafe(no_mangle)]
pub extern "C" fn rd_drop_key_with_notice(
    alloc: Global,
    handle: &mut Handle,
    key: u64,
    now: u64,
    answer: &mut Answer,
    left: &mut Left,
) -> u64
    ensures made { IsCall DropKey key now handle.old handle.new answer.old answer.new result }
    ensures first { left.new ≡ unwrap_or (first_left (cache_of handle.new)) left.old }
{
    let number = make(alloc, handle, Call::DropKey(key, now), answer);
    write_first(alloc, handle, left);
    number
}

/// Takes the entry out as `rd_drop_key_name` does, and writes the first notice, if there is one.
///
/// If there is none `left` stays as it was.
#[unsafe(no_mangle)]
pub extern "C" fn rd_drop_key_name_with_notice(
    alloc: Global,
    handle: &mut Handle,
    key: &Text,
    now: u64,
    answer: &mut Answer,
    left: &mut NameLeft,
) -> u64
    ensures made { IsNameCall DropKey key.now now
        handle.old handle.new answer.old answer.new result }
    ensures first { left.new ≡ unwrap_or (first_told key.now handle.new) left.old }
{
    let Some(name) = name_of(key) else {
        return TOO_LONG;
    };
    let number = make_named(alloc, handle, Call::DropKey(name, now), answer);
    write_first_name(alloc, handle, left);
    number
}
