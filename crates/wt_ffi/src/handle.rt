// C's handle of a cache: a pointer to it while it is open.
ghost use Rattle.std.specs.Prelude.{◌≡◌, Some, None, IsNone, is_some};
ghost use Rattle.std.specs.Option.{option_map};

use crate::opened::Opened;
use crate::pointer::Pointer;
use crate::raw_box::RawBox;
use std::alloc::Global;
use std::{mem, ptr};

// The numbers that calls return for a closed cache, an open one, a missing notice, keys of the
// other kind, and a name longer than 24 bytes.
pub(crate) const CLOSED: u64 = 100;

pub(crate) const OPEN: u64 = 101;

pub(crate) const NONE: u64 = 102;

pub(crate) const OTHER_KEYS: u64 = 103;

pub(crate) const TOO_LONG: u64 = 104;

/// C's handle of a cache: `rd_cache` of the header. If all its bytes are zero, it is closed.
#[repr(C)]
#[derive(Drop)]
pub struct Handle {
    // The cache, while it is open.
    pub pointer: Pointer,
    // Whether there is one.
    pub is_open: bool,
    ghost fits: { is_open ≡ is_some pointer.cache },
}

impl Handle {
    // Takes the cache out, if it is open, and leaves the handle closed.
    #[inline(always)]
    pub(crate) fn take(&mut self, alloc: Global) -> Option<Box<Opened, Global>>
        ensures found { option_map (λ b. b.value) result ≡ self.old.pointer.cache }
        ensures closed { self.new.pointer.cache ≡ None }
    {
        if !self.is_open {
            return None;
        }
        let closed = Handle {
            pointer: Pointer::closed(alloc, ptr::null_mut()),
            is_open: false,
        };
        let handle = mem::replace(self, closed);
        Some(handle.pointer.into_raw_box().into_box())
    }

    // Puts a cache in. The handle has to be closed: an open cache in it would never be freed.
    #[inline(always)]
    pub(crate) fn give(&mut self, opened: Box<Opened, Global>)
        requires { IsNone self.old.pointer.cache }
        ensures { self.new.pointer.cache ≡ Some opened.value }
    {
        *self = Handle {
            pointer: Pointer::of(RawBox::of(opened)),
            is_open: true,
        };
    }
}

fn sendable<T: Send>() {}

/// Proves, by being checked, that an open cache may go to another thread, and so C's handle too.
pub fn cache_is_sendable() {
    sendable::<Box<Opened, Global>>();
}
