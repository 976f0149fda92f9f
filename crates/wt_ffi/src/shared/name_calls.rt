// The calls by name on a shared cache. Each is one step in the history of all its callers.
ghost use Rattle.wt_core.specs.declared.calls.Call.TheVariants.{DropKey, Forget, Look, Seek};
ghost use Rattle.wt_ffi.specs.Tokens.{timed};
ghost use Rattle.wt_ffi.specs.Calls.{failed, keep, loose, put};
ghost use Rattle.wt_ffi.specs.Sharing.{IsSharedNameCall};

use crate::answer::Answer;
use crate::handle::TOO_LONG;
use crate::shared::handle::SharedHandle;
use crate::shared::names::make_shared_named;
use crate::text::{Text, name_of};
use crate::token::Token;
use std::alloc::Global;
use wt_core::{Call, Land};

/// Looks the name up: `RD_HIT` or `RD_ABSENT`.
///
/// Like the other seven calls by name, it does nothing in three cases, checked in this order: it
/// returns 104 if the name is too long, 100 if the handle is closed, and 103 if its keys are numbers.
/// If another call is at work it returns 105, and nothing happens. Only a hit of an entry in
/// probation takes memory. Expected amortised O(1), unless an attacker chooses the names.
#[unsafe(no_mangle)]
pub extern "C" fn rd_shared_look_name(
    alloc: Global,
    handle: &mut SharedHandle,
    key: &Text,
    now: u64,
    answer: &mut Answer,
) -> u64
    ensures made { IsSharedNameCall (λ k. Look k now) key.now
        handle.old handle.new answer.old answer.new result }
{
    let Some(name) = name_of(key) else {
        return TOO_LONG;
    };
    make_shared_named(alloc, handle, Call::Look(name, now), answer)
}

/// Looks the name up, and if it isn't there, joins its current load or opens one, as `rd_seek` does.
///
/// If another call is at work it returns 105, and nothing happens. Takes memory only for a load
/// that it opens and for a hit in probation. Expected amortised O(1), unless an attacker chooses
/// the names.
#[unsafe(no_mangle)]
pub extern "C" fn rd_shared_seek_name(
    alloc: Global,
    handle: &mut SharedHandle,
    key: &Text,
    now: u64,
    answer: &mut Answer,
) -> u64
    ensures made { IsSharedNameCall (λ k. Seek k now) key.now
        handle.old handle.new answer.old answer.new result }
{
    let Some(name) = name_of(key) else {
        return TOO_LONG;
    };
    make_shared_named(alloc, handle, Call::Seek(name, now), answer)
}

/// Closes a load of the name with a value, as `rd_land_keep` does.
///
/// If another call is at work it returns 105, and nothing happens. Takes memory only if it stores.
/// Expected O(1), unless an attacker chooses the names.
#[unsafe(no_mangle)]
pub extern "C" fn rd_shared_land_keep_name(
    alloc: Global,
    handle: &mut SharedHandle,
    id: u64,
    key: &Text,
    value: Token,
    now: u64,
    answer: &mut Answer,
) -> u64
    ensures made { IsSharedNameCall (λ k. keep id (timed value 0) k now) key.now
        handle.old handle.new answer.old answer.new result }
{
    let Some(name) = name_of(key) else {
        return TOO_LONG;
    };
    make_shared_named(
        alloc,
        handle,
        Call::Land(id, name, Land::Keep(value.lasting()), now),
        answer,
    )
}

/// Closes a load of the name with a value that isn't to be stored: `RD_LOOSE` or `RD_GONE`.
///
/// If another call is at work it returns 105, and nothing happens. Takes no memory. Expected O(1),
/// unless an attacker chooses the names.
#[unsafe(no_mangle)]
pub extern "C" fn rd_shared_land_loose_name(
    alloc: Global,
    handle: &mut SharedHandle,
    id: u64,
    key: &Text,
    now: u64,
    answer: &mut Answer,
) -> u64
    ensures made { IsSharedNameCall (λ k. loose id k now) key.now
        handle.old handle.new answer.old answer.new result }
{
    let Some(name) = name_of(key) else {
        return TOO_LONG;
    };
    make_shared_named(
        alloc,
        handle,
        Call::Land(id, name, Land::Loose, now),
        answer,
    )
}

/// Closes a load of the name that failed: `RD_FAILED` or `RD_GONE`.
///
/// If another call is at work it returns 105, and nothing happens. Takes no memory. Expected O(1),
/// unless an attacker chooses the names.
#[unsafe(no_mangle)]
pub extern "C" fn rd_shared_land_failed_name(
    alloc: Global,
    handle: &mut SharedHandle,
    id: u64,
    key: &Text,
    now: u64,
    answer: &mut Answer,
) -> u64
    ensures made { IsSharedNameCall (λ k. failed id k now) key.now
        handle.old handle.new answer.old answer.new result }
{
    let Some(name) = name_of(key) else {
        return TOO_LONG;
    };
    make_shared_named(
        alloc,
        handle,
        Call::Land(id, name, Land::Failed, now),
        answer,
    )
}

/// Stores the value under the name, in place of one that is there: `RD_STORED`.
///
/// If another call is at work it returns 105, and nothing happens. A value that is too heavy is
/// refused before memory is asked for. Expected amortised O(1), unless an attacker chooses the
/// names.
#[unsafe(no_mangle)]
pub extern "C" fn rd_shared_put_name(
    alloc: Global,
    handle: &mut SharedHandle,
    key: &Text,
    value: Token,
    now: u64,
    answer: &mut Answer,
) -> u64
    ensures made { IsSharedNameCall (λ k. put (timed value 0) k now) key.now
        handle.old handle.new answer.old answer.new result }
{
    let Some(name) = name_of(key) else {
        return TOO_LONG;
    };
    make_shared_named(alloc, handle, Call::Put(name, value.lasting(), now), answer)
}

/// Takes the name's entry out: `RD_DROPPED`. The name's current load stores nothing.
///
/// If another call is at work it returns 105, and nothing happens. Takes no memory. Expected O(1),
/// unless an attacker chooses the names.
#[unsafe(no_mangle)]
pub extern "C" fn rd_shared_drop_key_name(
    alloc: Global,
    handle: &mut SharedHandle,
    key: &Text,
    now: u64,
    answer: &mut Answer,
) -> u64
    ensures made { IsSharedNameCall (λ k. DropKey k now) key.now
        handle.old handle.new answer.old answer.new result }
{
    let Some(name) = name_of(key) else {
        return TOO_LONG;
    };
    make_shared_named(alloc, handle, Call::DropKey(name, now), answer)
}

/// Lets no further caller join the name's current load, which stores nothing: `RD_FORGOT`.
///
/// If another call is at work it returns 105, and nothing happens. Takes no memory. Expected O(1),
/// unless an attacker chooses the names.
#[unsafe(no_mangle)]
pub extern "C" fn rd_shared_forget_name(
    alloc: Global,
    handle: &mut SharedHandle,
    key: &Text,
    now: u64,
    answer: &mut Answer,
) -> u64
    ensures made { IsSharedNameCall (λ k. Forget k now) key.now
        handle.old handle.new answer.old answer.new result }
{
    let Some(name) = name_of(key) else {
        return TOO_LONG;
    };
    make_shared_named(alloc, handle, Call::Forget(name, now), answer)
}
