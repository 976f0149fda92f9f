// A removal, by number and by name.
ghost use Rattle.wt_core.specs.declared.calls.Call.TheVariants.{DropKey};
ghost use Rattle.wt_ffi.specs.Contract.{IsCall, IsNameCall, IsStepMade};

use crate::answer::{Answer, answer_of, number_of};
use crate::cached::{Cached, write_answer};
use crate::handle::{Handle, TOO_LONG};
use crate::make::make;
use crate::names::make_named;
use crate::text::{Text, name_of};
use std::alloc::Global;
use wt_core::{Call, Reply};
use wt_keys::{CacheKey, Fault};

impl<K: CacheKey> Cached<K> {
    // Makes a removal, as `call` does.
    pub(crate) fn drop_key(&mut self, key: K, now: u64, answer: &mut Answer) -> u64
        ensures made { IsStepMade K.eq K.word (DropKey key now) self.old self.new answer.new result }
    {
        self.notices.empty();
        write_answer!(self, answer, self.core.drop_key(key, now, &mut self.notices), was => Reply::Dropped(was))
    }
}

/// Takes the key's entry out: `RD_DROPPED`, with 1 if an unexpired entry left, else 0.
///
/// The key's current load stores nothing. Takes no memory. Expected O(1), unless an attacker
/// chooses the keys.
#[unsafe(no_mangle)]
pub extern "C" fn rd_drop_key(
    alloc: Global,
    handle: &mut Handle,
    key: u64,
    now: u64,
    answer: &mut Answer,
) -> u64
    ensures made { IsCall DropKey key now handle.old handle.new answer.old answer.new result }
{
    make(alloc, handle, Call::DropKey(key, now), answer)
}

/// Takes the name's entry out: `RD_DROPPED`, with 1 if an unexpired entry left, else 0.
///
/// The name's current load stores nothing. Takes no memory. Expected O(1), unless an attacker
/// chooses the names.
#[unsafe(no_mangle)]
pub extern "C" fn rd_drop_key_name(
    alloc: Global,
    handle: &mut Handle,
    key: &Text,
    now: u64,
    answer: &mut Answer,
) -> u64
    ensures made { IsNameCall DropKey key.now now
        handle.old handle.new answer.old answer.new result }
{
    let Some(name) = name_of(key) else {
        return TOO_LONG;
    };
    make_named(alloc, handle, Call::DropKey(name, now), answer)
}

/// Takes the name's entry out, as `rd_drop_key_name` does, which had this name in 0.1.
///
/// Deprecated: the next major version has no call of this name.
#[unsafe(no_mangle)]
pub extern "C" fn rd_drop_name(
    alloc: Global,
    handle: &mut Handle,
    key: &Text,
    now: u64,
    answer: &mut Answer,
) -> u64
    ensures made { IsNameCall DropKey key.now now
        handle.old handle.new answer.old answer.new result }
{
    rd_drop_key_name(alloc, handle, key, now, answer)
}
