// A look-up, by number and by name.
ghost use Rattle.wt_core.specs.declared.calls.Call.TheVariants.{Look};
ghost use Rattle.wt_ffi.specs.Contract.{IsCall, IsNameCall, IsStepMade};

use crate::answer::{Answer, answer_of, number_of};
use crate::cached::{Cached, write_answer};
use crate::handle::{Handle, TOO_LONG};
use crate::make::make;
use crate::names::make_named;
use crate::text::{Text, name_of};
use std::alloc::Global;
use wt_core::{Call, Reply};
use wt_keys::{CacheKey, Fault};

impl<K: CacheKey> Cached<K> {
    // Looks a key up, as `call` does.
    pub(crate) fn look(&mut self, key: K, now: u64, answer: &mut Answer) -> u64
        ensures made { IsStepMade K.eq K.word (Look key now) self.old self.new answer.new result }
    {
        self.notices.empty();
        write_answer!(self, answer, self.core.look(key, now, &mut self.notices), reply => reply)
    }
}

/// Looks the key up at the moment `now`: `RD_HIT` with its token, which is a use, or `RD_ABSENT`.
///
/// Takes memory only for a hit in probation. Expected amortised O(1), unless an attacker chooses
/// the keys.
#[unsafe(no_mangle)]
pub extern "C" fn rd_look(
    alloc: Global,
    handle: &mut Handle,
    key: u64,
    now: u64,
    answer: &mut Answer,
) -> u64
    ensures made { IsCall Look key now handle.old handle.new answer.old answer.new result }
{
    make(alloc, handle, Call::Look(key, now), answer)
}

/// Looks the name up at the moment `now`: `RD_HIT` with its token, which is a use, or `RD_ABSENT`.
///
/// Like the other seven calls by name, it does nothing in three cases, checked in this order. It
/// returns 104 if the name is too long, 100 if the cache is closed, and 103 if its keys are
/// numbers. Takes memory only for a hit in probation. Expected amortised O(1), unless an attacker
/// chooses the names.
#[unsafe(no_mangle)]
pub extern "C" fn rd_look_name(
    alloc: Global,
    handle: &mut Handle,
    key: &Text,
    now: u64,
    answer: &mut Answer,
) -> u64
    ensures made { IsNameCall Look key.now now handle.old handle.new answer.old answer.new result }
{
    let Some(name) = name_of(key) else {
        return TOO_LONG;
    };
    make_named(alloc, handle, Call::Look(name, now), answer)
}
