// C's handle of an adviser: a pointer to it while it is open.
ghost use Rattle.std.specs.Prelude.{◌≡◌, Some, None, IsNone, is_some};
ghost use Rattle.std.specs.Option.{option_map};

use crate::adviser::Advising;
use crate::adviser::pointer::AdviserPointer;
use crate::raw_box::RawBox;
use std::alloc::Global;
use std::{mem, ptr};

/// C's handle of an adviser: `rd_adviser` of the header. If all its bytes are zero, it is closed.
#[repr(C)]
#[derive(Drop)]
pub struct AdviserHandle {
    // The adviser, while it is open.
    pub pointer: AdviserPointer,
    // Whether there is one.
    pub is_open: bool,
    ghost fits: { is_open ≡ is_some pointer.advising },
}

impl AdviserHandle {
    // Takes the adviser out, if it is open, and leaves the handle closed.
    #[inline(always)]
    pub(crate) fn take(&mut self, alloc: Global) -> Option<Box<Advising, Global>>
        ensures found { option_map (λ b. b.value) result ≡ self.old.pointer.advising }
        ensures closed { self.new.pointer.advising ≡ None }
    {
        if !self.is_open {
            return None;
        }
        let closed = AdviserHandle {
            pointer: AdviserPointer::closed(alloc, ptr::null_mut()),
            is_open: false,
        };
        let handle = mem::replace(self, closed);
        Some(handle.pointer.into_raw_box().into_box())
    }

    // Puts an adviser in. The handle has to be closed: an open adviser in it would never be freed.
    #[inline(always)]
    pub(crate) fn give(&mut self, advising: Box<Advising, Global>)
        requires { IsNone self.old.pointer.advising }
        ensures { self.new.pointer.advising ≡ Some advising.value }
    {
        *self = AdviserHandle {
            pointer: AdviserPointer::of(RawBox::of(advising)),
            is_open: true,
        };
    }
}

fn sendable<T: Send>() {}

/// Proves, by being checked, that an open adviser may go to another thread, and so C's handle too.
pub fn adviser_is_sendable() {
    sendable::<Box<Advising, Global>>();
}
