// An adviser on the window, for C.
ghost use Rattle.std.specs.Prelude.{◌≡◌, None, IsNone, IsSome};
ghost use Rattle.wt_ffi.specs.Advice.{IsAdvised, IsAdviserOpening, adviser_of};

mod handle;
pub(crate) mod pointer;

use crate::handle::{CLOSED, OPEN};
pub use handle::AdviserHandle;
use std::alloc::Global;
use wt_adviser::Adviser;

/// The adviser behind an open handle. Its keys are numbers.
#[derive(Drop)]
pub struct Advising {
    pub adviser: Adviser<u64>,
}

/// Opens an adviser for a cache, or for several with one policy, of `entries` entries in all, and
/// returns 0.
///
/// Returns 101 if the handle is open already, 2 if the entries are below 64 or above 4,194,304, 1
/// if an allocation fails, in this order. The handle is then as it was. Takes memory as
/// [`Adviser::new`]. O(entries).
#[unsafe(no_mangle)]
pub extern "C" fn rd_open_adviser(alloc: Global, entries: u32, handle: &mut AdviserHandle) -> u64
    ensures made { IsAdviserOpening entries handle.old handle.new result }
{
    if handle.is_open {
        return OPEN;
    }
    let adviser = match Adviser::new(alloc, entries) {
        Ok(adviser) => adviser,
        Err(fault) => return fault.number(),
    };
    match Box::new(alloc, Advising { adviser }) {
        Ok(advising) => {
            handle.give(advising);
            0
        }
        Err(_refused) => 1,
    }
}

/// Closes the adviser and returns 0; 100 if it is closed already.
///
/// No clause promises that its memory is freed.
#[unsafe(no_mangle)]
pub extern "C" fn rd_close_adviser(alloc: Global, handle: &mut AdviserHandle) -> u64
    ensures state { adviser_of handle.new ≡ None }
    ensures ok { IsSome (adviser_of handle.old) → result ≡ 0 }
    ensures closed { IsNone (adviser_of handle.old) → result ≡ 100 }
{
    match handle.take(alloc) {
        Some(_advising) => 0,
        None => CLOSED,
    }
}

/// Takes note of look-ups of these keys, in their order, whether they hit or not. Writes how many
/// entries window should hold, and returns 0.
///
/// Returns 1 if an allocation failed: a small cache that was refused memory has then not seen a key,
/// and all else is as with it. 100 if the adviser is closed, and nothing happens. Expected O(keys),
/// and O(entries / 64) more if the sketch halves.
#[unsafe(no_mangle)]
pub extern "C" fn rd_advise(
    alloc: Global,
    handle: &mut AdviserHandle,
    keys: &[u64],
    window: &mut u32,
) -> u64
    ensures made { IsAdvised keys.now handle.old handle.new window.old window.new result }
{
    let Some(mut advising) = handle.take(alloc) else {
        return CLOSED;
    };
    let number = match advising.adviser.saw_all(keys) {
        Ok(()) => 0,
        Err(_refused) => 1,
    };
    *window = advising.adviser.wanted();
    handle.give(advising);
    number
}
