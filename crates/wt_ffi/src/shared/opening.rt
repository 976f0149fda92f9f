// Opening, sharing, meeting and closing.
ghost use Rattle.std.specs.Prelude.{◌≡◌, ◌⊎◌, ◌<◌, None, Some, IfSome, IsNone, IsSome};
ghost use Rattle.wt_ffi.specs.Sharing.{AreOfOne, IsAnother, IsMeeting, IsSharedOpening, another_of, numbers_in, sharing_of};

use crate::handle::{CLOSED, OPEN};
use crate::setup::{Setup, config_of};
use crate::shared::handle::SharedHandle;
use crate::shared::sharing::Sharing;
use std::alloc::Global;
use wt_shared::Caller;

// Puts the caller into a closed handle, and returns 0; if memory is refused the handle stays
// closed, and it is 1.
pub(crate) fn hold(alloc: Global, handle: &mut SharedHandle, sharing: Sharing) -> u64
    requires { IsNone (sharing_of handle.old) }
    ensures state { result ≡ 0 → sharing_of handle.new ≡ Some sharing }
    ensures number { (result ≡ 0) ⊎ (result ≡ 1) }
    ensures err { 0 < result → sharing_of handle.new ≡ None }
{
    match Box::new(alloc, sharing) {
        Ok(sharing) => {
            handle.give(sharing);
            0
        }
        Err(_refused) => 1,
    }
}

/// Opens an empty cache whose keys are numbers, for its first caller, and returns 0.
///
/// Returns 101 if the handle is open already, 2 if the setup is out of its ranges, 1 if an
/// allocation fails, in this order. The handle is then as it was. Takes memory for all the entries.
#[unsafe(no_mangle)]
pub extern "C" fn rd_shared_open(alloc: Global, setup: &Setup, handle: &mut SharedHandle) -> u64
    ensures made { IsSharedOpening numbers_in setup.now handle.old handle.new result }
{
    if handle.is_open {
        return OPEN;
    }
    match Caller::open(alloc, &config_of(setup)) {
        Ok(caller) => hold(alloc, handle, Sharing::Numbers(caller)),
        Err(fault) => fault.number(),
    }
}

// Another caller of the cache of this one, with the same kind of keys.
fn another_of(alloc: Global, sharing: &Sharing) -> Option<Sharing>
    ensures { IfSome result (λ s. s ≡ another_of sharing.now) }
{
    match sharing {
        Sharing::Numbers(caller) => match caller.another(alloc) {
            Ok(caller) => Some(Sharing::Numbers(caller)),
            Err(_refused) => None,
        },
        Sharing::Names(caller) => match caller.another(alloc) {
            Ok(caller) => Some(Sharing::Names(caller)),
            Err(_refused) => None,
        },
    }
}

/// Opens `theirs` as another caller of the cache of `mine`, which has seen the calls that `mine`
/// has, and returns 0.
///
/// Returns 101 if `theirs` is open already, 100 if `mine` is closed, 1 if an allocation fails, in
/// this order. Both handles are then as they were. Takes memory for as many notices as the cache
/// may hold entries.
#[unsafe(no_mangle)]
pub extern "C" fn rd_shared_another(
    alloc: Global,
    mine: &mut SharedHandle,
    theirs: &mut SharedHandle,
) -> u64
    ensures made { IsAnother mine.old mine.new theirs.old theirs.new result }
{
    if theirs.is_open {
        return OPEN;
    }
    let Some(sharing) = mine.take(alloc) else {
        return CLOSED;
    };
    let number = match another_of(alloc, &*sharing) {
        Some(other) => hold(alloc, theirs, other),
        None => 1,
    };
    mine.give(sharing);
    number
}

/// Lets `mine` see the calls that `theirs` has made or met, so that the next calls of `mine` follow
/// them, and returns 0.
///
/// Both have to be handles of one cache, and two different ones. Returns 100 if one of them is
/// closed. Takes no memory. O(1).
#[unsafe(no_mangle)]
pub extern "C" fn rd_shared_meet(
    alloc: Global,
    mine: &mut SharedHandle,
    theirs: &mut SharedHandle,
) -> u64
    requires one_log { AreOfOne (sharing_of mine.old) (sharing_of theirs.old) }
    ensures made { IsMeeting mine.old mine.new theirs.old theirs.new result }
{
    let Some(mut own) = mine.take(alloc) else {
        return CLOSED;
    };
    let Some(other) = theirs.take(alloc) else {
        mine.give(own);
        return CLOSED;
    };
    match (&mut *own, &*other) {
        (Sharing::Numbers(caller), Sharing::Numbers(other)) => caller.meet(other),
        (Sharing::Names(caller), Sharing::Names(other)) => caller.meet(other),
        _ => {}
    }
    mine.give(own);
    theirs.give(other);
    0
}

/// Closes the caller and returns 0; 100 if it is closed already.
///
/// The cache goes with its last caller. No clause promises that its memory is freed.
#[unsafe(no_mangle)]
pub extern "C" fn rd_shared_close(alloc: Global, handle: &mut SharedHandle) -> u64
    ensures state { sharing_of handle.new ≡ None }
    ensures ok { IsSome (sharing_of handle.old) → result ≡ 0 }
    ensures closed { IsNone (sharing_of handle.old) → result ≡ 100 }
{
    match handle.take(alloc) {
        Some(_sharing) => 0,
        None => CLOSED,
    }
}
