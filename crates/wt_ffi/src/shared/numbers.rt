// The numbers of a shared cache, all of one moment.
ghost use Rattle.std.specs.Prelude.{◌≡◌};
ghost use Rattle.wt_ffi.specs.SharedNumbers.{AreTold, IsSharedReading, fault_told, numbers_told};

use crate::handle::CLOSED;
use crate::shared::handle::SharedHandle;
use crate::shared::make::{BUSY, LOST};
use crate::shared::sharing::Sharing;
use crate::shows::Numbers;
use crate::token::Timed;
use std::alloc::Global;
use wt_keys::CacheKey;
use wt_shared::{Caller, Numbers as Shown, Unmade};

// Writes the numbers that were read, and returns the number for C.
#[inline(always)]
fn show(shown: Result<Shown, Unmade>, numbers: &mut Numbers) -> u64
    ensures answer { numbers.new ≡ numbers_told shown numbers.old }
    ensures number { result ≡ fault_told shown }
{
    match shown {
        Ok(shown) => {
            *numbers = Numbers {
                lookups: shown.stats.lookups,
                hits: shown.stats.hits,
                misses: shown.stats.misses,
                loads: shown.stats.loads,
                failed: shown.stats.failed,
                evicted: shown.stats.evicted,
                entries: shown.stats.entries,
                weight: shown.stats.weight,
                step: shown.step,
                latest: shown.latest,
                flights: shown.flights,
            };
            0
        }
        Err(Unmade::NoMemory) => 1,
        Err(Unmade::Busy) => BUSY,
        Err(Unmade::Lost) => LOST,
    }
}

// Reads the numbers of the cache of an open caller.
#[inline(always)]
#[tactic(auto, using(crate::proofs::Outcomes::are_told))]
fn numbers_of<K: CacheKey>(caller: &mut Caller<K, Timed>, numbers: &mut Numbers) -> u64
    ensures made { AreTold K.eq K.word caller.old caller.new numbers.old numbers.new result }
{
    let shown = caller.numbers();
    show(shown, numbers)
}

/// Tells the numbers of the cache right behind all calls up to now, all of this one moment, and
/// returns 0.
///
/// Is no step: it has no place, and leaves the notices of this caller's latest call. If another call
/// is at work it returns 105, and nothing happens. 100 if the handle is closed. Takes no memory.
/// O(1).
#[unsafe(no_mangle)]
pub extern "C" fn rd_shared_get_numbers(
    alloc: Global,
    handle: &mut SharedHandle,
    numbers: &mut Numbers,
) -> u64
    ensures made { IsSharedReading handle.old handle.new numbers.old numbers.new result }
{
    let Some(mut sharing) = handle.take(alloc) else {
        return CLOSED;
    };
    let number = match &mut *sharing {
        Sharing::Numbers(caller) => numbers_of(caller, numbers),
        Sharing::Names(caller) => numbers_of(caller, numbers),
    };
    handle.give(sharing);
    number
}
