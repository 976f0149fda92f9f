// Opening and closing.
ghost use Rattle.std.specs.Prelude.{◌≡◌, ◌⊎◌, ◌<◌, None, Some, IfOk, IsOk, IsNone, IsSome};
ghost use Rattle.wt_core.specs.State.{config_fault};
ghost use Rattle.wt_ffi.specs.Contract.{IsOpening};
ghost use Rattle.wt_ffi.specs.Handle.{cache_of, Has};
ghost use Rattle.wt_ffi.specs.Setups.{config_of, duration, empty_numbers, field_number, opened_by};
ghost use Rattle.wt_ffi.specs.Setups.{Checks, IsMadeUnless};

use crate::cached::Cached;
use crate::handle::{CLOSED, Handle, OPEN};
use crate::opened::Opened;
use std::alloc::Global;
use wt_core::{Config, Core};
use wt_keys::{CacheKey, Fault, Field};
use wt_regions::Notices;

/// The settings of a cache that C opens: `rd_setup` of the header.
#[repr(C)]
#[derive(Clone, Copy, PartialEq, Eq)]
pub struct Setup {
    /// How many entries it may hold: 1 to 65,536.
    pub entries: u32,
    /// How many of them the window may hold: 1 to `entries`.
    pub window: u32,
    /// How many loads may be open: 1 to 4,096.
    pub flights: u32,
    /// How much the entries may weigh together: 1 to 2^48.
    pub bound: u64,
    /// How long after it was written an entry expires, in milliseconds; 0: never.
    pub after_write: u64,
    /// How long after it was used an entry expires, in milliseconds; 0: never.
    pub after_access: u64,
    /// How long after it was written an entry is due for a further load, in milliseconds; 0: never.
    pub refresh: u64,
}

fn duration(milliseconds: u64) -> Option<u64>
    ensures { result ≡ duration milliseconds }
{
    if milliseconds == 0 {
        None
    } else {
        Some(milliseconds)
    }
}

pub(crate) fn config_of(setup: &Setup) -> Config
    ensures { result ≡ config_of setup.now }
{
    Config {
        entries: setup.entries,
        window: setup.window,
        bound: setup.bound,
        after_write: duration(setup.after_write),
        after_access: duration(setup.after_access),
        refresh: duration(setup.refresh),
        flights: setup.flights,
        // Of a sharded cache alone; this one has no shards.
        ring: 65536,
    }
}

pub(crate) fn cached<K: CacheKey>(alloc: Global, config: &Config) -> Result<Cached<K>, Fault>
    ensures ok { IfOk result (λ o. o ≡ opened_by config.now) }
    ensures lawful { IsOk result → config_fault config.now ≡ None }
    ensures refusal { IsMadeUnless (config_fault config.now) result }
{
    match Core::new(alloc, config) {
        Ok(core) => match Notices::new(alloc, config.entries as usize) {
            Ok(notices) => Ok(Cached { core, notices }),
            Err(_refused) => Err(Fault::NoMemory),
        },
        Err(fault) => Err(fault),
    }
}

// Puts the cache into a closed handle, and returns 0; if memory is refused the handle stays
// closed, and it is 1.
pub(crate) fn hold(alloc: Global, handle: &mut Handle, opened: Opened) -> u64
    requires { IsNone (cache_of handle.old) }
    ensures state { result ≡ 0 → Has handle.new opened }
    ensures number { (result ≡ 0) ⊎ (result ≡ 1) }
    ensures err { 0 < result → cache_of handle.new ≡ None }
{
    match Box::new(alloc, opened) {
        Ok(opened) => {
            handle.give(opened);
            0
        }
        Err(_refused) => 1,
    }
}

/// Opens an empty cache whose keys are numbers, and returns 0.
///
/// Returns 101 if the handle is open already, 2 if the setup is out of its ranges, 1 if an
/// allocation fails, in this order. The handle is then as it was. Takes memory for all the entries.
#[unsafe(no_mangle)]
pub extern "C" fn rd_open(alloc: Global, setup: &Setup, handle: &mut Handle) -> u64
    ensures made { IsOpening empty_numbers setup.now handle.old handle.new result }
{
    if handle.is_open {
        return OPEN;
    }
    match cached(alloc, &config_of(setup)) {
        Ok(cache) => hold(alloc, handle, Opened::Numbers(cache)),
        Err(fault) => fault.number(),
    }
}

/// Closes the cache and returns 0; 100 if it is closed already. Its entries have no notices.
///
/// No clause promises that its memory is freed.
#[unsafe(no_mangle)]
pub extern "C" fn rd_close(alloc: Global, handle: &mut Handle) -> u64
    ensures state { cache_of handle.new ≡ None }
    ensures ok { IsSome (cache_of handle.old) → result ≡ 0 }
    ensures closed { IsNone (cache_of handle.old) → result ≡ 100 }
{
    match handle.take(alloc) {
        Some(_opened) => 0,
        None => CLOSED,
    }
}

/// Returns the number of the first setting that is out of its range: 1 entries, 2 window, 3
/// flights, 4 bound, 5 after_write, 6 after_access, 7 refresh; 0 if none is. Takes no memory.
#[unsafe(no_mangle)]
pub extern "C" fn rd_check(setup: &Setup) -> u64
    ensures { Checks setup.now result }
{
    match config_of(setup).check() {
        Err(Fault::BadConfig { field }) => field_number(field),
        _ => 0,
    }
}

fn field_number(field: Field) -> u64
    ensures { result ≡ field_number field }
{
    match field {
        Field::Entries => 1,
        Field::Window => 2,
        Field::Flights => 3,
        Field::Bound => 4,
        Field::AfterWrite => 5,
        Field::AfterAccess => 6,
        Field::Refresh => 7,
        _ => 8,
    }
}
