// A look-up that opens or joins a load, by number and by name.
ghost use Rattle.std.specs.Prelude.{◌≡◌, ◌<◌};
ghost use Rattle.wt_core.specs.declared.calls.Call.TheVariants.{Seek};
ghost use Rattle.wt_ffi.specs.Calls.{after, number_after, answer_after, IsRefused, IsFree};
ghost use Rattle.wt_ffi.specs.Contract.{IsCall, IsNameCall};

use crate::answer::{Answer, answer_of, number_of};
use crate::cached::{Cached, write_answer};
use crate::handle::{Handle, TOO_LONG};
use crate::make::make;
use crate::names::make_named;
use crate::text::{Text, name_of};
use std::alloc::Global;
use wt_core::{Call, Reply};
use wt_keys::{CacheKey, Fault};

impl<K: CacheKey> Cached<K> {
    // Makes a look-up that opens or joins a load, as `call` does. For the prover: the clauses stand
    // in full.
    pub(crate) fn seek(&mut self, key: K, now: u64, answer: &mut Answer) -> u64
        ensures state { self.new ≡ after K.eq K.word answer.new.kind (Seek key now) self.old }
        ensures number { result ≡ number_after K.eq K.word answer.new.kind (Seek key now) self.old }
        ensures answer { answer.new ≡ answer_after K.eq K.word answer.new.kind (Seek key now) self.old }
        ensures refusal { IsRefused K.eq K.word (Seek key now) self.old → 0 < answer.new.kind }
        ensures memory { IsFree K.eq (Seek key now) self.old → 0 < answer.new.kind }
    {
        self.notices.empty();
        write_answer!(self, answer, self.core.seek(key, now, &mut self.notices), reply => reply)
    }
}

/// Looks the key up, and if it isn't there, joins its current load or opens one.
///
/// `RD_HIT`, `RD_JOIN` or `RD_LEAD`, or `RD_HIT_LEAD` if the entry is due for a further load, the
/// last three with the load's id. After `RD_LEAD` or `RD_HIT_LEAD` the caller loads the value and
/// lands it. Takes memory only for a load that it opens and for a hit in probation. Expected
/// amortised O(1), unless an attacker chooses the keys.
#[unsafe(no_mangle)]
pub extern "C" fn rd_seek(
    alloc: Global,
    handle: &mut Handle,
    key: u64,
    now: u64,
    answer: &mut Answer,
) -> u64
    ensures made { IsCall Seek key now handle.old handle.new answer.old answer.new result }
{
    make(alloc, handle, Call::Seek(key, now), answer)
}

/// Looks the name up, and if it isn't there, joins its current load or opens one.
///
/// It returns as `rd_seek` does. Expected amortised O(1), unless an attacker chooses the names.
#[unsafe(no_mangle)]
pub extern "C" fn rd_seek_name(
    alloc: Global,
    handle: &mut Handle,
    key: &Text,
    now: u64,
    answer: &mut Answer,
) -> u64
    ensures made { IsNameCall Seek key.now now handle.old handle.new answer.old answer.new result }
{
    let Some(name) = name_of(key) else {
        return TOO_LONG;
    };
    make_named(alloc, handle, Call::Seek(name, now), answer)
}
