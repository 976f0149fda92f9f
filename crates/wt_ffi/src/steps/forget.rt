// The forgetting of a load, by number and by name.
ghost use Rattle.wt_core.specs.declared.calls.Call.TheVariants.{Forget};
ghost use Rattle.wt_ffi.specs.Contract.{IsCall, IsNameCall, IsStepMade};

use crate::answer::{Answer, answer_of, number_of};
use crate::cached::{Cached, write_answer};
use crate::handle::{Handle, TOO_LONG};
use crate::make::make;
use crate::names::make_named;
use crate::text::{Text, name_of};
use std::alloc::Global;
use wt_core::{Call, Reply};
use wt_keys::{CacheKey, Fault};

impl<K: CacheKey> Cached<K> {
    // Makes the forgetting of a load, as `call` does.
    pub(crate) fn forget(&mut self, key: K, now: u64, answer: &mut Answer) -> u64
        ensures made { IsStepMade K.eq K.word (Forget key now) self.old self.new answer.new result }
    {
        self.notices.empty();
        write_answer!(self, answer, self.core.forget(key, now, &mut self.notices), was => Reply::Forgot(was))
    }
}

/// Lets no further caller join the key's current load: `RD_FORGOT`, with 1 if there was one, else
/// 0.
///
/// That load stores nothing. Takes no memory. Expected O(1), unless an attacker chooses the keys.
#[unsafe(no_mangle)]
pub extern "C" fn rd_forget(
    alloc: Global,
    handle: &mut Handle,
    key: u64,
    now: u64,
    answer: &mut Answer,
) -> u64
    ensures made { IsCall Forget key now handle.old handle.new answer.old answer.new result }
{
    make(alloc, handle, Call::Forget(key, now), answer)
}

/// Lets no further caller join the name's current load: `RD_FORGOT`, with 1 if there was one.
///
/// That load stores nothing. Takes no memory. Expected O(1), unless an attacker chooses the names.
#[unsafe(no_mangle)]
pub extern "C" fn rd_forget_name(
    alloc: Global,
    handle: &mut Handle,
    key: &Text,
    now: u64,
    answer: &mut Answer,
) -> u64
    ensures made { IsNameCall Forget key.now now
        handle.old handle.new answer.old answer.new result }
{
    let Some(name) = name_of(key) else {
        return TOO_LONG;
    };
    make_named(alloc, handle, Call::Forget(name, now), answer)
}
