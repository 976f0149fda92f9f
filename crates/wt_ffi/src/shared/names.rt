// A shared cache of names: opening one, its notices, and the one step of each of C's calls by name.
ghost use Rattle.std.specs.Prelude.{◌≡◌, nat_eq, IfSome, IsNone, IsSome};
ghost use Rattle.std.specs.Cmp.Lexicographic.{pointwise};
ghost use Rattle.wt_keys.specs.Hash.{word_of_name};
ghost use Rattle.wt_ffi.specs.Sharing.{HasOutcome, IsIdle, IsSharedNoticeRead, IsSharedOpening, name_left_in, names_in, numbers_in, sharing_of};

use crate::answer::Answer;
use crate::handle::{CLOSED, OPEN, OTHER_KEYS};
use crate::names::{NameLeft, name_left_of};
use crate::setup::{Setup, config_of};
use crate::shared::handle::SharedHandle;
use crate::shared::make::make_of;
use crate::shared::opening::hold;
use crate::shared::sharing::Sharing;
use crate::shows::tell;
use crate::token::Timed;
use std::alloc::Global;
use wt_core::Call;
use wt_keys::Name;
use wt_shared::Caller;

/// Opens an empty cache whose keys are names, for its first caller, and returns 0; else a number as
/// `rd_shared_open` does.
///
/// Takes memory for all the entries.
#[unsafe(no_mangle)]
pub extern "C" fn rd_shared_open_names(
    alloc: Global,
    setup: &Setup,
    handle: &mut SharedHandle,
) -> u64
    ensures made { IsSharedOpening names_in setup.now handle.old handle.new result }
{
    if handle.is_open {
        return OPEN;
    }
    match Caller::open(alloc, &config_of(setup)) {
        Ok(caller) => hold(alloc, handle, Sharing::Names(caller)),
        Err(fault) => fault.number(),
    }
}

/// Writes a notice of this caller's latest call that wasn't busy, by its place from 0, and returns 0.
///
/// 100 if the handle is closed, 103 if its keys are numbers, 102 if there is no such notice. Takes no
/// memory. O(1).
#[unsafe(no_mangle)]
pub extern "C" fn rd_shared_get_notice_name(
    alloc: Global,
    handle: &mut SharedHandle,
    i: u64,
    left: &mut NameLeft,
) -> u64
    ensures made { IsSharedNoticeRead (name_left_in i) handle.old handle.new left.old left.new result }
{
    let Some(sharing) = handle.take(alloc) else {
        return CLOSED;
    };
    let number = match &*sharing {
        Sharing::Names(caller) => tell(caller.left().get(i as usize).map(name_left_of), left),
        Sharing::Numbers(_) => OTHER_KEYS,
    };
    handle.give(sharing);
    number
}

// Makes a call on the cache of names behind the handle. If the handle is closed, or one of numbers,
// nothing happens, and `CLOSED` or `OTHER_KEYS` is returned.
#[inline(always)]
pub(crate) fn make_shared_named(
    alloc: Global,
    handle: &mut SharedHandle,
    call: Call<Name, Timed>,
    answer: &mut Answer,
) -> u64
    ensures state { IfSome (names_in handle.old) (λ m. IfSome (names_in handle.new) (λ n.
        HasOutcome (pointwise nat_eq) word_of_name call m n answer.old answer.new result)) }
    ensures still { IsSome (names_in handle.old) → IsSome (names_in handle.new) }
    ensures closed { IsNone (sharing_of handle.old)
        → (result ≡ 100) × IsIdle handle.old handle.new answer.old answer.new }
    ensures other { IsSome (numbers_in handle.old)
        → (result ≡ 103) × IsIdle handle.old handle.new answer.old answer.new }
{
    let Some(mut sharing) = handle.take(alloc) else {
        return CLOSED;
    };
    let number = match &mut *sharing {
        Sharing::Names(caller) => make_of(caller, call, answer),
        Sharing::Numbers(_) => OTHER_KEYS,
    };
    handle.give(sharing);
    number
}
