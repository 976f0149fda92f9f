// What left in the latest call of a caller of a shared cache.
ghost use Rattle.std.specs.Prelude.{◌≡◌, IfSome, IsNone};
ghost use Rattle.wt_ffi.specs.Sharing.{IsSharedNoticeRead, left_in, place_of, sharing_of};

use crate::handle::{CLOSED, OTHER_KEYS};
use crate::shared::handle::SharedHandle;
use crate::shared::sharing::Sharing;
use crate::shows::{Left, left_of, tell};
use std::alloc::Global;

/// Writes a notice of this caller's latest call that wasn't busy, by its place from 0, and returns 0.
///
/// 100 if the handle is closed, 103 if its keys are names, 102 if there is no such notice. Takes no
/// memory. O(1).
#[unsafe(no_mangle)]
pub extern "C" fn rd_shared_get_notice(
    alloc: Global,
    handle: &mut SharedHandle,
    i: u64,
    left: &mut Left,
) -> u64
    ensures made { IsSharedNoticeRead (left_in i) handle.old handle.new left.old left.new result }
{
    let Some(sharing) = handle.take(alloc) else {
        return CLOSED;
    };
    let number = match &*sharing {
        Sharing::Numbers(caller) => tell(caller.left().get(i as usize).map(left_of), left),
        Sharing::Names(_) => OTHER_KEYS,
    };
    handle.give(sharing);
    number
}

/// Writes the number of this caller's latest call in the history, from 1, and returns 0; 0 is
/// written before its first call.
///
/// A call that was refused memory has no number: it is then how many calls, of all callers, stand
/// before it. 100 if the handle is closed. Takes no memory. O(1).
#[unsafe(no_mangle)]
pub extern "C" fn rd_shared_get_place(
    alloc: Global,
    handle: &mut SharedHandle,
    place: &mut u64,
) -> u64
    ensures answer { IfSome (sharing_of handle.old) (λ s. (result ≡ 0) × (place.new ≡ place_of s)) }
    ensures closed { IsNone (sharing_of handle.old) → (result ≡ 100) × (place.new ≡ place.old) }
    ensures same { sharing_of handle.new ≡ sharing_of handle.old }
{
    let Some(sharing) = handle.take(alloc) else {
        return CLOSED;
    };
    *place = match &*sharing {
        Sharing::Numbers(caller) => caller.number(),
        Sharing::Names(caller) => caller.number(),
    };
    handle.give(sharing);
    0
}
