// The reads of C: a cache's numbers, and the notices of its latest call.
ghost use Rattle.std.specs.Prelude.{◌≡◌};
ghost use Rattle.wt_ffi.specs.Contract.{IsNoticeRead};
ghost use Rattle.wt_ffi.specs.Handle.{cache_of, IfOpen, IsIdleIfClosed};
ghost use Rattle.wt_ffi.specs.Shows.{numbers_of, shown_of, IsLawfulOpen, IsLawfulOpened, window_of};
ghost use Rattle.wt_ffi.specs.Shows.{cause_number, left_of, left_in, Reads};

use crate::cached::Cached;
use crate::handle::{CLOSED, Handle, NONE, OTHER_KEYS};
use crate::opened::Opened;
use crate::token::Timed;
use std::alloc::Global;
use wt_keys::CacheKey;
use wt_regions::{Cause, Notice};

/// The numbers of a cache: `rd_numbers` of the header.
#[repr(C)]
#[derive(Clone, Copy, PartialEq, Eq)]
pub struct Numbers {
    /// Look-ups: hits and misses.
    pub lookups: u64,
    /// Look-ups that found the key.
    pub hits: u64,
    /// Look-ups that did not.
    pub misses: u64,
    /// Loads that succeeded.
    pub loads: u64,
    /// Loads that failed.
    pub failed: u64,
    /// Entries that left as Expired or Size.
    pub evicted: u64,
    /// Entries held now.
    pub entries: u64,
    /// Their weight together.
    pub weight: u64,
    /// The number of steps so far.
    pub step: u64,
    /// The latest moment.
    pub latest: u64,
    /// How many loads are open.
    pub flights: u64,
}

/// An entry that left: `rd_notice` of the header.
#[repr(C)]
#[derive(Clone, Copy, PartialEq, Eq)]
pub struct Left {
    /// Its key.
    pub key: u64,
    /// Its token, which is the caller's now.
    pub token: u64,
    /// Its weight.
    pub weight: u32,
    /// Why it left: 1 Explicit, 2 Replaced, 3 Expired, 4 Size.
    pub cause: u32,
}

pub(crate) fn cause_number(cause: Cause) -> u32
    ensures { result ≡ cause_number cause }
{
    match cause {
        Cause::Explicit => 1,
        Cause::Replaced => 2,
        Cause::Expired => 3,
        Cause::Size => 4,
    }
}

// The notice that C gets for one of the cache's.
pub(crate) fn left_of(notice: &Notice<u64, Timed>) -> Left
    ensures { result ≡ left_of notice.now }
{
    Left {
        key: notice.key,
        token: notice.value.token,
        weight: notice.value.weight,
        cause: cause_number(notice.cause),
    }
}

impl<K: CacheKey> Cached<K> {
    // All numbers at once.
    fn numbers(&self) -> Numbers
        ensures answer { result ≡ numbers_of self.now.core }
        ensures lawful { IsLawfulOpen K.eq self.now }
    {
        let stats = self.core.stats();
        Numbers {
            lookups: stats.lookups,
            hits: stats.hits,
            misses: stats.misses,
            loads: stats.loads,
            failed: stats.failed,
            evicted: stats.evicted,
            entries: stats.entries,
            weight: stats.weight,
            step: self.core.step(),
            latest: self.core.latest(),
            flights: self.core.open_flights() as u64,
        }
    }
}

/// Tells the numbers of the cache, and returns 0; 100 if it is closed.
///
/// At all times hits and misses together are the look-ups, the entries and their weight are within
/// the setup's limits, and no number wraps. Takes no memory. O(1).
#[unsafe(no_mangle)]
pub extern "C" fn rd_get_numbers(alloc: Global, handle: &mut Handle, numbers: &mut Numbers) -> u64
    ensures answer { IfOpen handle.old (λ c. (result ≡ 0) × (numbers.new ≡ shown_of c)) }
    // What holds of a cache at all times.
    ensures lawful { IfOpen handle.old IsLawfulOpened }
    ensures closed { IsIdleIfClosed handle.old handle.new numbers.old numbers.new result }
    ensures same { cache_of handle.new ≡ cache_of handle.old }
{
    let Some(opened) = handle.take(alloc) else {
        return CLOSED;
    };
    *numbers = match &*opened {
        Opened::Numbers(cache) => cache.numbers(),
        Opened::Names(cache) => cache.numbers(),
    };
    handle.give(opened);
    0
}

/// Tells how many entries the window may hold now, and returns 0; 100 if the cache is closed.
///
/// It is the setup's, unless slides moved the border. Takes no memory. O(1).
#[unsafe(no_mangle)]
pub extern "C" fn rd_get_window(alloc: Global, handle: &mut Handle, window: &mut u32) -> u64
    ensures answer { IfOpen handle.old (λ c. (result ≡ 0) × (window.new ≡ window_of c)) }
    ensures closed { IsIdleIfClosed handle.old handle.new window.old window.new result }
    ensures same { cache_of handle.new ≡ cache_of handle.old }
{
    let Some(opened) = handle.take(alloc) else {
        return CLOSED;
    };
    *window = match &*opened {
        Opened::Numbers(cache) => cache.core.window(),
        Opened::Names(cache) => cache.core.window(),
    };
    handle.give(opened);
    0
}

// Writes the notice if there is one, and returns the number for C.
pub(crate) fn tell<L: Copy>(found: Option<L>, left: &mut L) -> u64
    ensures { Reads found result left.old left.new }
{
    match found {
        Some(found) => {
            *left = found;
            0
        }
        None => NONE,
    }
}

/// Writes a notice of the latest call on a cache of numbers, by its place from 0, and returns 0.
///
/// 100 if the cache is closed, 103 if its keys are names, 102 if there is no such notice.
/// Takes no memory. O(1).
#[unsafe(no_mangle)]
pub extern "C" fn rd_get_notice(alloc: Global, handle: &mut Handle, i: u64, left: &mut Left) -> u64
    ensures made { IsNoticeRead (left_in i) handle.old handle.new left.old left.new result }
{
    let Some(opened) = handle.take(alloc) else {
        return CLOSED;
    };
    let number = match &*opened {
        Opened::Numbers(cache) => tell(cache.notices.list().get(i as usize).map(left_of), left),
        Opened::Names(_) => OTHER_KEYS,
    };
    handle.give(opened);
    number
}
