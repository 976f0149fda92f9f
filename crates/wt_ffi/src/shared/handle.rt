// C's handle of a caller: a pointer to it while it is open.
ghost use Rattle.std.specs.Prelude.{◌≡◌, Some, None, IsNone, is_some};
ghost use Rattle.std.specs.Option.{option_map};

use crate::raw_box::RawBox;
use crate::shared::pointer::SharedPointer;
use crate::shared::sharing::Sharing;
use std::alloc::Global;
use std::{mem, ptr};

// For the prover: apart from the call that it is passed to.
fn nowhere() -> *mut u8 {
    ptr::null_mut()
}

/// C's handle of a caller of a shared cache: `rd_caller` of the header. If all its bytes are zero,
/// it is closed.
#[repr(C)]
#[derive(Drop)]
pub struct SharedHandle {
    // The caller, while it is open.
    pub pointer: SharedPointer,
    // Whether there is one.
    pub is_open: bool,
    ghost fits: { is_open ≡ is_some pointer.sharing },
}

impl SharedHandle {
    // One that is closed.
    #[inline(always)]
    fn closed(alloc: Global) -> SharedHandle
        ensures { result.pointer.sharing ≡ None }
    {
        SharedHandle {
            pointer: SharedPointer::closed(alloc, nowhere()),
            is_open: false,
        }
    }

    // Takes the caller out, if it is open, and leaves the handle closed.
    #[inline(always)]
    pub(crate) fn take(&mut self, alloc: Global) -> Option<Box<Sharing, Global>>
        ensures found { option_map (λ b. b.value) result ≡ self.old.pointer.sharing }
        ensures closed { self.new.pointer.sharing ≡ None }
    {
        if !self.is_open {
            return None;
        }
        let handle = mem::replace(self, SharedHandle::closed(alloc));
        Some(handle.pointer.into_raw_box().into_box())
    }

    // Puts a caller in. The handle has to be closed: an open caller in it would never be freed.
    #[inline(always)]
    pub(crate) fn give(&mut self, sharing: Box<Sharing, Global>)
        requires { IsNone self.old.pointer.sharing }
        ensures { self.new.pointer.sharing ≡ Some sharing.value }
    {
        *self = SharedHandle {
            pointer: SharedPointer::of(RawBox::of(sharing)),
            is_open: true,
        };
    }
}

fn sendable<T: Send>() {}

/// Proves, by being checked, that an open caller may go to another thread, and so C's handle too.
pub fn caller_is_sendable() {
    sendable::<Box<Sharing, Global>>();
}
