// The calls by number on a shared cache. Each is one step in the history of all its callers.
ghost use Rattle.wt_core.specs.declared.calls.Call.TheVariants.{DropKey, Forget, Look, Seek};
ghost use Rattle.wt_ffi.specs.Tokens.{timed};
ghost use Rattle.wt_ffi.specs.Calls.{failed, keep, loose, put};
ghost use Rattle.wt_ffi.specs.Sharing.{IsSharedCall};

use crate::answer::Answer;
use crate::shared::handle::SharedHandle;
use crate::shared::make::make_shared;
use crate::token::Token;
use std::alloc::Global;
use wt_core::{Call, Land};

/// Looks the key up: `RD_HIT` or `RD_ABSENT`.
///
/// If another call is at work it returns 105, and nothing happens. Only a hit of an entry in
/// probation takes memory. Expected amortised O(1), unless an attacker chooses the keys.
#[unsafe(no_mangle)]
pub extern "C" fn rd_shared_look(
    alloc: Global,
    handle: &mut SharedHandle,
    key: u64,
    now: u64,
    answer: &mut Answer,
) -> u64
    ensures made { IsSharedCall (Look key now) handle.old handle.new answer.old answer.new result }
{
    make_shared(alloc, handle, Call::Look(key, now), answer)
}

/// Looks the key up, and if it isn't there, joins its current load or opens one, as `rd_seek` does.
///
/// If another call is at work it returns 105, and nothing happens. Takes memory only for a load
/// that it opens and for a hit in probation. Expected amortised O(1), unless an attacker chooses
/// the keys.
#[unsafe(no_mangle)]
pub extern "C" fn rd_shared_seek(
    alloc: Global,
    handle: &mut SharedHandle,
    key: u64,
    now: u64,
    answer: &mut Answer,
) -> u64
    ensures made { IsSharedCall (Seek key now) handle.old handle.new answer.old answer.new result }
{
    make_shared(alloc, handle, Call::Seek(key, now), answer)
}

/// Closes a load with a value, as `rd_land_keep` does.
///
/// If another call is at work it returns 105, and nothing happens. Takes memory only if it stores.
/// Expected O(1), unless an attacker chooses the keys.
#[unsafe(no_mangle)]
pub extern "C" fn rd_shared_land_keep(
    alloc: Global,
    handle: &mut SharedHandle,
    id: u64,
    key: u64,
    value: Token,
    now: u64,
    answer: &mut Answer,
) -> u64
    ensures made { IsSharedCall (keep id (timed value 0) key now) handle.old handle.new answer.old answer.new result }
{
    make_shared(
        alloc,
        handle,
        Call::Land(id, key, Land::Keep(value.lasting()), now),
        answer,
    )
}

/// Closes a load with a value that isn't to be stored: `RD_LOOSE` or `RD_GONE`.
///
/// If another call is at work it returns 105, and nothing happens. Takes no memory. Expected O(1),
/// unless an attacker chooses the keys.
#[unsafe(no_mangle)]
pub extern "C" fn rd_shared_land_loose(
    alloc: Global,
    handle: &mut SharedHandle,
    id: u64,
    key: u64,
    now: u64,
    answer: &mut Answer,
) -> u64
    ensures made { IsSharedCall (loose id key now) handle.old handle.new answer.old answer.new result }
{
    make_shared(alloc, handle, Call::Land(id, key, Land::Loose, now), answer)
}

/// Closes a load that failed: `RD_FAILED` or `RD_GONE`.
///
/// If another call is at work it returns 105, and nothing happens. Takes no memory. Expected O(1),
/// unless an attacker chooses the keys.
#[unsafe(no_mangle)]
pub extern "C" fn rd_shared_land_failed(
    alloc: Global,
    handle: &mut SharedHandle,
    id: u64,
    key: u64,
    now: u64,
    answer: &mut Answer,
) -> u64
    ensures made { IsSharedCall (failed id key now) handle.old handle.new answer.old answer.new result }
{
    make_shared(
        alloc,
        handle,
        Call::Land(id, key, Land::Failed, now),
        answer,
    )
}

/// Stores the value under the key, in place of one that is there: `RD_STORED`.
///
/// If another call is at work it returns 105, and nothing happens. A value that is too heavy is
/// refused before memory is asked for. Expected amortised O(1), unless an attacker chooses the
/// keys.
#[unsafe(no_mangle)]
pub extern "C" fn rd_shared_put(
    alloc: Global,
    handle: &mut SharedHandle,
    key: u64,
    value: Token,
    now: u64,
    answer: &mut Answer,
) -> u64
    ensures made { IsSharedCall (put (timed value 0) key now) handle.old handle.new answer.old answer.new result }
{
    make_shared(alloc, handle, Call::Put(key, value.lasting(), now), answer)
}

/// Takes the key's entry out: `RD_DROPPED`. The key's current load stores nothing.
///
/// If another call is at work it returns 105, and nothing happens. Takes no memory. Expected O(1),
/// unless an attacker chooses the keys.
#[unsafe(no_mangle)]
pub extern "C" fn rd_shared_drop_key(
    alloc: Global,
    handle: &mut SharedHandle,
    key: u64,
    now: u64,
    answer: &mut Answer,
) -> u64
    ensures made { IsSharedCall (DropKey key now) handle.old handle.new answer.old answer.new result }
{
    make_shared(alloc, handle, Call::DropKey(key, now), answer)
}

/// Lets no further caller join the key's current load, which stores nothing: `RD_FORGOT`.
///
/// If another call is at work it returns 105, and nothing happens. Takes no memory. Expected O(1),
/// unless an attacker chooses the keys.
#[unsafe(no_mangle)]
pub extern "C" fn rd_shared_forget(
    alloc: Global,
    handle: &mut SharedHandle,
    key: u64,
    now: u64,
    answer: &mut Answer,
) -> u64
    ensures made { IsSharedCall (Forget key now) handle.old handle.new answer.old answer.new result }
{
    make_shared(alloc, handle, Call::Forget(key, now), answer)
}
