//! The pointer of a box, or none.
ghost use Rattle.std.specs.Prelude.{◌≡◌, Option, Some, None, IsSome};
ghost use Rattle.rtc_c_handle.specs.Owned.{owns_or_none};
ghost use Rattle.rtc_c_handle.specs.declared.held.Held.{Held};

use crate::Held;
use crate::parts::Parts;
use std::alloc::Global;
use std::marker::Model;
use std::ptr::null_mut;

/// The box of a value that C keeps, or none, as one pointer.
#[repr(C)]
#[derive(Drop)]
pub struct Handle {
    place: *mut u8,
    alloc: Global,
    pub ghost value: { Option Held },
}

impl Model for Handle {
    ghost also_owns = { λ handle. owns_or_none handle.alloc handle.place handle.value };
}

impl Handle {
    /// Returns a handle that has no box.
    pub(crate) fn none(alloc: Global) -> Handle
        ensures { result.value ≡ None }
    {
        Handle {
            place: null_mut(),
            alloc,
        }
    }

    /// Keeps the parts of a box.
    pub(crate) fn of_parts(parts: Parts<Held, Global>) -> Handle
        ensures { result.value ≡ Some parts.value }
    {
        let Parts { place, alloc } = parts;
        Handle {
            place: place as *mut u8,
            alloc,
        }
    }

    /// Returns the parts of the box that is kept.
    pub(crate) fn into_parts(self) -> Parts<Held, Global>
        requires { IsSome self.value }
        ensures { Some result.value ≡ self.value }
    {
        let Handle { place, alloc } = self;
        Parts {
            place: place as *mut Held,
            alloc,
        }
    }
}
