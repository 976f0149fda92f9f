// The calls on a shared cache that name no key, whichever keys it has.
ghost use Rattle.wt_ffi.specs.Sharing.{IsSharedKeylessCall};
ghost use Rattle.wt_ffi.specs.declared.keyless.Keyless.TheVariants as keyless;

use crate::answer::Answer;
use crate::handle::CLOSED;
use crate::keyless::{Keyless, call_of};
use crate::shared::handle::SharedHandle;
use crate::shared::make::make_of;
use crate::shared::sharing::Sharing;
use std::alloc::Global;

// Makes the call on the cache behind the handle. If the handle is closed nothing happens, and
// `CLOSED` is returned.
#[inline(always)]
fn make_keyless(
    alloc: Global,
    handle: &mut SharedHandle,
    keyless: Keyless,
    now: u64,
    answer: &mut Answer,
) -> u64
    ensures made { IsSharedKeylessCall keyless now handle.old handle.new answer.old answer.new result }
{
    let Some(mut sharing) = handle.take(alloc) else {
        return CLOSED;
    };
    let number = match &mut *sharing {
        Sharing::Numbers(caller) => make_of(caller, call_of(keyless, now), answer),
        Sharing::Names(caller) => make_of(caller, call_of(keyless, now), answer),
    };
    handle.give(sharing);
    number
}

/// Takes every entry out: `RD_CLEARED`. The loads that are open store nothing.
///
/// If another call is at work it returns 105, and nothing happens. Takes no memory. O(entries).
#[unsafe(no_mangle)]
pub extern "C" fn rd_shared_clear(
    alloc: Global,
    handle: &mut SharedHandle,
    now: u64,
    answer: &mut Answer,
) -> u64
    ensures made { IsSharedKeylessCall keyless.Clear now
        handle.old handle.new answer.old answer.new result }
{
    make_keyless(alloc, handle, Keyless::Clear, now, answer)
}

/// Takes the expired entries out: `RD_CLEANED`.
///
/// If another call is at work it returns 105, and nothing happens. Takes no memory. O(entries).
#[unsafe(no_mangle)]
pub extern "C" fn rd_shared_clean(
    alloc: Global,
    handle: &mut SharedHandle,
    now: u64,
    answer: &mut Answer,
) -> u64
    ensures made { IsSharedKeylessCall keyless.Clean now
        handle.old handle.new answer.old answer.new result }
{
    make_keyless(alloc, handle, Keyless::Clean, now, answer)
}

/// Moves the border between window and main by one entry: `RD_SLID`, whose number is 1 if it moved.
///
/// If another call is at work it returns 105, and nothing happens. Takes memory only if the border
/// moves. Expected O(1).
#[unsafe(no_mangle)]
pub extern "C" fn rd_shared_slide(
    alloc: Global,
    handle: &mut SharedHandle,
    wider: bool,
    now: u64,
    answer: &mut Answer,
) -> u64
    ensures made { IsSharedKeylessCall (keyless.Slide wider) now
        handle.old handle.new answer.old answer.new result }
{
    make_keyless(alloc, handle, Keyless::Slide { wider }, now, answer)
}
