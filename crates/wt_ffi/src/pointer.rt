// A box, or none, as a pointer that C may hold.
ghost use Rattle.std.specs.Prelude.{◌≡◌, Option, Some, None, IsSome};
ghost use Rattle.wt_ffi.specs.declared.opened.Opened.{Opened};
ghost use Rattle.wt_ffi.specs.Pointer.{pointer_owns};

use crate::opened::Opened;
use crate::raw_box::RawBox;
use std::alloc::Global;
use std::marker::Model;

/// A pointer to a box of an open cache, which it owns, or to nothing.
///
/// C has no type for the box behind the pointer, so the pointer's type is that of a byte's.
#[repr(C)]
#[derive(Drop)]
pub struct Pointer {
    at: *mut u8,
    alloc: Global,
    pub ghost cache: { Option Opened },
}

impl Model for Pointer {
    ghost also_owns = { λ p. pointer_owns p.alloc p.at p.cache };
}

impl Pointer {
    // One that owns nothing.
    pub(crate) fn closed(alloc: Global, at: *mut u8) -> Pointer
        ensures { result.cache ≡ None }
    {
        Pointer { at, alloc }
    }

    pub(crate) fn of(raw: RawBox<Opened, Global>) -> Pointer
        ensures { result.cache ≡ Some raw.value }
    {
        let RawBox { at, alloc } = raw;
        Pointer {
            at: at as *mut u8,
            alloc,
        }
    }

    pub(crate) fn into_raw_box(self) -> RawBox<Opened, Global>
        requires { IsSome self.cache }
        ensures { Some result.value ≡ self.cache }
    {
        let Pointer { at, alloc } = self;
        RawBox {
            at: at as *mut Opened,
            alloc,
        }
    }
}
