// The closing of a load, by number and by name.
ghost use Rattle.std.specs.Prelude.{◌≡◌, ◌<◌};
ghost use Rattle.wt_core.specs.declared.calls.Call.TheVariants.{Land as land};
ghost use Rattle.wt_ffi.specs.Tokens.{timed};
ghost use Rattle.wt_ffi.specs.Calls.{after, answer_after, failed, keep, loose, number_after, IsFree, IsRefused};
ghost use Rattle.wt_ffi.specs.Contract.{IsCall, IsNameCall};

use crate::answer::{Answer, answer_of, number_of};
use crate::cached::{Cached, write_answer};
use crate::handle::{Handle, TOO_LONG};
use crate::make::make;
use crate::names::make_named;
use crate::text::{Text, name_of};
use crate::token::{Timed, Token};
use std::alloc::Global;
use wt_core::{Call, Land, Reply};
use wt_keys::{CacheKey, Fault};

impl<K: CacheKey> Cached<K> {
    // Closes a load, as `call` does. For the prover: the clauses stand in full.
    pub(crate) fn land(
        &mut self,
        id: u64,
        key: K,
        what: Land<Timed>,
        now: u64,
        answer: &mut Answer,
    ) -> u64
        ensures state { self.new ≡ after K.eq K.word answer.new.kind (land id key what now) self.old }
        ensures number { result ≡ number_after K.eq K.word answer.new.kind (land id key what now) self.old }
        ensures answer { answer.new ≡ answer_after K.eq K.word answer.new.kind (land id key what now) self.old }
        ensures refusal { IsRefused K.eq K.word (land id key what now) self.old → 0 < answer.new.kind }
        ensures memory { IsFree K.eq (land id key what now) self.old → 0 < answer.new.kind }
    {
        self.notices.empty();
        write_answer!(self, answer, self.core.land(id, key, what, now, &mut self.notices), reply => reply)
    }
}

/// Closes a load with a value, which is stored if the load is current and the value isn't too
/// heavy.
///
/// `RD_KEPT` if it was stored, else `RD_LOOSE`, both with the number of sharers; `RD_GONE` if no
/// such load of the key is open. Takes memory only if it stores. Expected O(1), unless an attacker
/// chooses the keys; O(entries) in a trim.
#[unsafe(no_mangle)]
pub extern "C" fn rd_land_keep(
    alloc: Global,
    handle: &mut Handle,
    id: u64,
    key: u64,
    value: Token,
    now: u64,
    answer: &mut Answer,
) -> u64
    ensures made { IsCall (keep id (timed value 0)) key now
        handle.old handle.new answer.old answer.new result }
{
    make(
        alloc,
        handle,
        Call::Land(id, key, Land::Keep(value.lasting()), now),
        answer,
    )
}

/// Closes a load with a value that isn't to be stored: `RD_LOOSE` with the number of sharers, or
/// `RD_GONE`.
///
/// Takes no memory. Expected O(1), unless an attacker chooses the keys.
#[unsafe(no_mangle)]
pub extern "C" fn rd_land_loose(
    alloc: Global,
    handle: &mut Handle,
    id: u64,
    key: u64,
    now: u64,
    answer: &mut Answer,
) -> u64
    ensures made { IsCall (loose id) key now handle.old handle.new answer.old answer.new result }
{
    make(alloc, handle, Call::Land(id, key, Land::Loose, now), answer)
}

/// Closes a load that failed: `RD_FAILED` with the number of sharers, or `RD_GONE`.
///
/// Takes no memory. Expected O(1), unless an attacker chooses the keys.
#[unsafe(no_mangle)]
pub extern "C" fn rd_land_failed(
    alloc: Global,
    handle: &mut Handle,
    id: u64,
    key: u64,
    now: u64,
    answer: &mut Answer,
) -> u64
    ensures made { IsCall (failed id) key now handle.old handle.new answer.old answer.new result }
{
    make(
        alloc,
        handle,
        Call::Land(id, key, Land::Failed, now),
        answer,
    )
}

/// Closes a load of the name with a value, which is stored if the load is current.
///
/// It returns as `rd_land_keep` does: `RD_KEPT`, `RD_LOOSE` or `RD_GONE`. Takes memory only if it
/// stores. Expected O(1), O(entries) in a trim.
#[unsafe(no_mangle)]
pub extern "C" fn rd_land_keep_name(
    alloc: Global,
    handle: &mut Handle,
    id: u64,
    key: &Text,
    value: Token,
    now: u64,
    answer: &mut Answer,
) -> u64
    ensures made { IsNameCall (keep id (timed value 0)) key.now now
        handle.old handle.new answer.old answer.new result }
{
    let Some(name) = name_of(key) else {
        return TOO_LONG;
    };
    make_named(
        alloc,
        handle,
        Call::Land(id, name, Land::Keep(value.lasting()), now),
        answer,
    )
}

/// Closes a load of the name with a value that isn't to be stored.
///
/// `RD_LOOSE` with the number of sharers, or `RD_GONE`. Takes no memory. Expected O(1), unless an
/// attacker chooses the names.
#[unsafe(no_mangle)]
pub extern "C" fn rd_land_loose_name(
    alloc: Global,
    handle: &mut Handle,
    id: u64,
    key: &Text,
    now: u64,
    answer: &mut Answer,
) -> u64
    ensures made { IsNameCall (loose id) key.now now
        handle.old handle.new answer.old answer.new result }
{
    let Some(name) = name_of(key) else {
        return TOO_LONG;
    };
    make_named(
        alloc,
        handle,
        Call::Land(id, name, Land::Loose, now),
        answer,
    )
}

/// Closes a load of the name that failed: `RD_FAILED` with the number of sharers, or `RD_GONE`.
///
/// Takes no memory. Expected O(1), unless an attacker chooses the names.
#[unsafe(no_mangle)]
pub extern "C" fn rd_land_failed_name(
    alloc: Global,
    handle: &mut Handle,
    id: u64,
    key: &Text,
    now: u64,
    answer: &mut Answer,
) -> u64
    ensures made { IsNameCall (failed id) key.now now
        handle.old handle.new answer.old answer.new result }
{
    let Some(name) = name_of(key) else {
        return TOO_LONG;
    };
    make_named(
        alloc,
        handle,
        Call::Land(id, name, Land::Failed, now),
        answer,
    )
}
