// A peek at a shared cache, by number and by name: what a look-up would find, with nothing used.
ghost use Rattle.std.specs.Prelude.{◌≡◌};
ghost use Rattle.wt_ffi.specs.SharedPeeks.{HasFound, IsSharedNamePeek, IsSharedPeek, reply_told};

use crate::answer::Answer;
use crate::handle::{CLOSED, OTHER_KEYS, TOO_LONG};
use crate::shared::handle::SharedHandle;
use crate::shared::make::tell;
use crate::shared::sharing::Sharing;
use crate::text::{Text, name_of};
use crate::token::Timed;
use std::alloc::Global;
use wt_core::Reply;
use wt_keys::CacheKey;
use wt_shared::{Caller, Unmade};

// The reply of a look that finds this, or why there is none.
#[inline(always)]
fn reply_of(found: Result<Option<Timed>, Unmade>) -> Result<Reply<Timed>, Unmade>
    ensures { result ≡ reply_told found }
{
    match found {
        Ok(Some(token)) => Ok(Reply::Hit(token)),
        Ok(None) => Ok(Reply::Absent),
        Err(why) => Err(why),
    }
}

// Peeks at the cache of an open caller. A share of a token is a copy, so no memory is refused.
#[inline(always)]
#[tactic(auto, using(crate::proofs::Outcomes::has_found))]
fn peek_of<K: CacheKey>(caller: &mut Caller<K, Timed>, key: K, now: u64, answer: &mut Answer) -> u64
    ensures made { HasFound K.eq K.word key now caller.old caller.new answer.old answer.new result }
{
    let found = caller.peek(key, now);
    let reply = reply_of(found);
    tell(&reply, 0, answer)
}

/// Tells what a look of the key at the moment `now` would be answered right behind all calls up to
/// now: `RD_HIT` with its token, or `RD_ABSENT`. Returns 0.
///
/// Is no step: it uses no entry, counts nothing, has no place, and leaves the notices of this
/// caller's latest call. If another call is at work it returns 105, and nothing happens. 100 if the
/// handle is closed, 103 if its keys are names. Takes no memory. Expected O(1), unless an attacker
/// chooses the keys.
#[unsafe(no_mangle)]
pub extern "C" fn rd_shared_peek(
    alloc: Global,
    handle: &mut SharedHandle,
    key: u64,
    now: u64,
    answer: &mut Answer,
) -> u64
    ensures made { IsSharedPeek key now handle.old handle.new answer.old answer.new result }
{
    let Some(mut sharing) = handle.take(alloc) else {
        return CLOSED;
    };
    let number = match &mut *sharing {
        Sharing::Numbers(caller) => peek_of(caller, key, now, answer),
        Sharing::Names(_) => OTHER_KEYS,
    };
    handle.give(sharing);
    number
}

/// Tells what a look of the name at the moment `now` would be answered right behind all calls up to
/// now: `RD_HIT` with its token, or `RD_ABSENT`. Returns 0.
///
/// Is no step, as `rd_shared_peek`, and is refused as the calls by name are. If another call is at
/// work it returns 105, and nothing happens. Takes no memory. Expected O(1), unless an attacker
/// chooses the names.
#[unsafe(no_mangle)]
pub extern "C" fn rd_shared_peek_name(
    alloc: Global,
    handle: &mut SharedHandle,
    key: &Text,
    now: u64,
    answer: &mut Answer,
) -> u64
    ensures made { IsSharedNamePeek key.now now
        handle.old handle.new answer.old answer.new result }
{
    let Some(name) = name_of(key) else {
        return TOO_LONG;
    };
    let Some(mut sharing) = handle.take(alloc) else {
        return CLOSED;
    };
    let number = match &mut *sharing {
        Sharing::Names(caller) => peek_of(caller, name, now, answer),
        Sharing::Numbers(_) => OTHER_KEYS,
    };
    handle.give(sharing);
    number
}
