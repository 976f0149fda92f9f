// A store, by number and by name.
ghost use Rattle.wt_ffi.specs.Tokens.{timed};
ghost use Rattle.wt_ffi.specs.Calls.{put};
ghost use Rattle.wt_ffi.specs.Contract.{IsCall, IsNameCall, IsStepMade};

use crate::answer::{Answer, answer_of, number_of};
use crate::cached::{Cached, write_answer};
use crate::handle::{Handle, TOO_LONG};
use crate::make::make;
use crate::names::make_named;
use crate::text::{Text, name_of};
use crate::token::{Timed, Token};
use std::alloc::Global;
use wt_core::{Call, Reply};
use wt_keys::{CacheKey, Fault};

impl<K: CacheKey> Cached<K> {
    // Makes a store, as `call` does.
    pub(crate) fn put(&mut self, key: K, value: Timed, now: u64, answer: &mut Answer) -> u64
        ensures made { IsStepMade K.eq K.word (put value key now) self.old self.new answer.new result }
    {
        self.notices.empty();
        write_answer!(self, answer, self.core.put(key, value, now, &mut self.notices), () => Reply::Stored)
    }
}

/// Stores the value under the key, in place of one that is there: `RD_STORED`.
///
/// The notices have the entries that left, which may include the new value itself. The key's
/// current load stores nothing. A value that is too heavy is refused before memory is asked for.
/// Expected amortised O(1), unless an attacker chooses the keys; O(entries) in a trim.
#[unsafe(no_mangle)]
pub extern "C" fn rd_put(
    alloc: Global,
    handle: &mut Handle,
    key: u64,
    value: Token,
    now: u64,
    answer: &mut Answer,
) -> u64
    ensures made { IsCall (put (timed value 0)) key now handle.old handle.new answer.old answer.new result }
{
    make(alloc, handle, Call::Put(key, value.lasting(), now), answer)
}

/// Stores the value under the name, in place of one that is there, as `rd_put` does: `RD_STORED`.
///
/// Expected amortised O(1), O(entries) in a trim.
#[unsafe(no_mangle)]
pub extern "C" fn rd_put_name(
    alloc: Global,
    handle: &mut Handle,
    key: &Text,
    value: Token,
    now: u64,
    answer: &mut Answer,
) -> u64
    ensures made { IsNameCall (put (timed value 0)) key.now now
        handle.old handle.new answer.old answer.new result }
{
    let Some(name) = name_of(key) else {
        return TOO_LONG;
    };
    make_named(alloc, handle, Call::Put(name, value.lasting(), now), answer)
}
