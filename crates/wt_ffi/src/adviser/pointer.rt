// A box of an adviser, or none, as a pointer that C may hold. A struct that crosses to C has no type
// parameter, so this isn't one type with the pointer to a cache.
ghost use Rattle.std.specs.Prelude.{◌≡◌, Option, Some, None, IsSome};
ghost use Rattle.wt_ffi.specs.declared.adviser.Advising.{Advising};
ghost use Rattle.wt_ffi.specs.AdviserPointer.{adviser_pointer_owns};

use crate::adviser::Advising;
use crate::raw_box::RawBox;
use std::alloc::Global;
use std::marker::Model;

/// A pointer to a box of an adviser, which it owns, or to nothing.
///
/// C has no type for the box behind the pointer, so the pointer's type is that of a byte's.
#[repr(C)]
#[derive(Drop)]
pub struct AdviserPointer {
    at: *mut u8,
    alloc: Global,
    pub ghost advising: { Option Advising },
}

impl Model for AdviserPointer {
    ghost also_owns = { λ p. adviser_pointer_owns p.alloc p.at p.advising };
}

impl AdviserPointer {
    // One that owns nothing.
    pub(crate) fn closed(alloc: Global, at: *mut u8) -> AdviserPointer
        ensures { result.advising ≡ None }
    {
        AdviserPointer { at, alloc }
    }

    pub(crate) fn of(raw: RawBox<Advising, Global>) -> AdviserPointer
        ensures { result.advising ≡ Some raw.value }
    {
        let RawBox { at, alloc } = raw;
        AdviserPointer {
            at: at as *mut u8,
            alloc,
        }
    }

    pub(crate) fn into_raw_box(self) -> RawBox<Advising, Global>
        requires { IsSome self.advising }
        ensures { Some result.value ≡ self.advising }
    {
        let AdviserPointer { at, alloc } = self;
        RawBox {
            at: at as *mut Advising,
            alloc,
        }
    }
}
