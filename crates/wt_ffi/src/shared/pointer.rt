// A box of a caller, or none, as a pointer that C may hold. A struct that crosses to C has no type
// parameter, so this isn't one type with the pointer to a cache.
ghost use Rattle.std.specs.Prelude.{◌≡◌, Option, Some, None, IsSome};
ghost use Rattle.wt_ffi.specs.declared.shared.sharing.Sharing.{Sharing};
ghost use Rattle.wt_ffi.specs.SharedPointer.{shared_pointer_owns};

use crate::raw_box::RawBox;
use crate::shared::sharing::Sharing;
use std::alloc::Global;
use std::marker::Model;

/// A pointer to a box of a caller, which it owns, or to nothing.
///
/// C has no type for the box behind the pointer, so the pointer's type is that of a byte's.
#[repr(C)]
#[derive(Drop)]
pub struct SharedPointer {
    at: *mut u8,
    alloc: Global,
    pub ghost sharing: { Option Sharing },
}

impl Model for SharedPointer {
    ghost also_owns = { λ p. shared_pointer_owns p.alloc p.at p.sharing };
}

impl SharedPointer {
    // One that owns nothing.
    pub(crate) fn closed(alloc: Global, at: *mut u8) -> SharedPointer
        ensures { result.sharing ≡ None }
    {
        SharedPointer { at, alloc }
    }

    pub(crate) fn of(raw: RawBox<Sharing, Global>) -> SharedPointer
        ensures { result.sharing ≡ Some raw.value }
    {
        let RawBox { at, alloc } = raw;
        SharedPointer {
            at: at as *mut u8,
            alloc,
        }
    }

    pub(crate) fn into_raw_box(self) -> RawBox<Sharing, Global>
        requires { IsSome self.sharing }
        ensures { Some result.value ≡ self.sharing }
    {
        let SharedPointer { at, alloc } = self;
        RawBox {
            at: at as *mut Sharing,
            alloc,
        }
    }
}
