// A cache of names: opening one, its notices, and the one step of each of C's calls by name.
ghost use Rattle.std.specs.Prelude.{◌≡◌, ◌<◌};
ghost use Rattle.wt_ffi.specs.Contract.{IsNoticeRead, IsOpening};
ghost use Rattle.wt_ffi.specs.Handle.{HasNames, IfNames, IsIdleIfClosed, IsIdleIfNumbers};
ghost use Rattle.wt_ffi.specs.Named.{after, number_after, answer_after, IsRefused, IsFree};
ghost use Rattle.wt_ffi.specs.Setups.{empty_names};
ghost use Rattle.wt_ffi.specs.Shows.{name_left_of, name_left_in};

use crate::answer::Answer;
use crate::handle::{CLOSED, Handle, OPEN, OTHER_KEYS};
use crate::opened::Opened;
use crate::setup::{Setup, cached, config_of, hold};
use crate::shows::{cause_number, tell};
use crate::text::{Text, text_of};
use crate::token::Timed;
use std::alloc::Global;
use wt_core::Call;
use wt_keys::Name;
use wt_regions::Notice;

/// Opens an empty cache whose keys are names, and returns 0; else a number as `rd_open` does.
///
/// Takes memory for all the entries.
#[unsafe(no_mangle)]
pub extern "C" fn rd_open_names(alloc: Global, setup: &Setup, handle: &mut Handle) -> u64
    ensures made { IsOpening empty_names setup.now handle.old handle.new result }
{
    if handle.is_open {
        return OPEN;
    }
    match cached(alloc, &config_of(setup)) {
        Ok(cache) => hold(alloc, handle, Opened::Names(cache)),
        Err(fault) => fault.number(),
    }
}

/// A name that left: `rd_name_notice` of the header.
#[repr(C)]
#[derive(Clone, Copy, PartialEq, Eq)]
pub struct NameLeft {
    /// Its key.
    pub key: Text,
    /// Its token, which is the caller's now.
    pub token: u64,
    /// Its weight.
    pub weight: u32,
    /// Why it left, as a number's.
    pub cause: u32,
}

pub(crate) fn name_left_of(notice: &Notice<Name, Timed>) -> NameLeft
    ensures { result ≡ name_left_of notice.now }
{
    NameLeft {
        key: text_of(&notice.key),
        token: notice.value.token,
        weight: notice.value.weight,
        cause: cause_number(notice.cause),
    }
}

/// Tells a notice of the latest call on a cache of names, by its place from 0, and returns 0.
///
/// 100 if the cache is closed, 103 if its keys are numbers, 102 if there is no such
/// notice. Takes no memory. O(1).
#[unsafe(no_mangle)]
pub extern "C" fn rd_get_notice_name(
    alloc: Global,
    handle: &mut Handle,
    i: u64,
    left: &mut NameLeft,
) -> u64
    ensures made { IsNoticeRead (name_left_in i) handle.old handle.new left.old left.new result }
{
    let Some(opened) = handle.take(alloc) else {
        return CLOSED;
    };
    let number = match &*opened {
        Opened::Names(cache) => tell(cache.notices.list().get(i as usize).map(name_left_of), left),
        Opened::Numbers(_) => OTHER_KEYS,
    };
    handle.give(opened);
    number
}

// Makes a call on the handle's cache of names. Where it is closed or one of numbers nothing
// happens, and `CLOSED` or `OTHER_KEYS` is returned.
#[inline(always)]
pub(crate) fn make_named(
    alloc: Global,
    handle: &mut Handle,
    call: Call<Name, Timed>,
    answer: &mut Answer,
) -> u64
    ensures state { IfNames handle.old (λ c. HasNames handle.new (after answer.new call c)) }
    ensures number { IfNames handle.old (λ c. result ≡ number_after answer.new call c) }
    ensures answer { IfNames handle.old (λ c. answer.new ≡ answer_after answer.new call c) }
    ensures refusal { IfNames handle.old (λ c. IsRefused call c → 0 < answer.new.kind) }
    ensures memory { IfNames handle.old (λ c. IsFree call c → 0 < answer.new.kind) }
    ensures closed { IsIdleIfClosed handle.old handle.new answer.old answer.new result }
    ensures other { IsIdleIfNumbers handle.old handle.new answer.old answer.new result }
{
    let Some(mut opened) = handle.take(alloc) else {
        return CLOSED;
    };
    let number = match &mut *opened {
        Opened::Names(cache) => cache.call(call, answer),
        Opened::Numbers(_) => OTHER_KEYS,
    };
    handle.give(opened);
    number
}
