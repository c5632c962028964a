//! A place that C keeps.
ghost use Rattle.std.specs.Prelude.{◌≡◌, Some, None, is_some, option_map};

use crate::Held;
use crate::handle::Handle;
use crate::parts::Parts;
use std::alloc::Global;
use std::mem;

/// A place for a value that C keeps. If all its bytes are 0, it is empty.
#[repr(C)]
pub struct Slot {
    full: bool,
    pub handle: Handle,
    ghost filled: { full ≡ is_some handle.value },
}

impl Drop for Slot {
    // A call, and no copy in each function that fills a slot: what frees a peer takes a frame of the size of a peer.
    #[cold]
    #[inline(never)]
    fn drop(self) {
        drop(self.into_box());
    }
}

impl Slot {
    /// Returns an empty slot.
    pub fn empty(alloc: Global) -> Slot
        ensures { result.handle.value ≡ None }
    {
        let handle = Handle::none(alloc);
        Slot {
            full: false,
            handle,
        }
    }

    /// Returns a slot that keeps the value.
    pub fn of_box(value: Box<Held>) -> Slot
        ensures { result.handle.value ≡ Some value.value }
    {
        let handle = Handle::of_parts(Parts::of_box(value));
        Slot { full: true, handle }
    }

    /// Returns the value that is kept, if any.
    pub fn into_box(self) -> Option<Box<Held>>
        ensures { option_map (λ b. b.value) result ≡ self.handle.value }
    {
        let Slot { full, handle } = self;
        if full {
            Some(handle.into_parts().into_box())
        } else {
            None
        }
    }

    /// Takes the value out, if any, and leaves the slot empty.
    pub fn take(&mut self, alloc: Global) -> Option<Box<Held>>
        ensures left { self.new.handle.value ≡ None }
        ensures value { option_map (λ b. b.value) result ≡ self.old.handle.value }
    {
        mem::replace(self, Slot::empty(alloc)).into_box()
    }

    /// Returns whether a value is kept.
    pub fn is_full(&mut self) -> bool
        ensures full { result ≡ is_some self.old.handle.value }
        ensures kept { self.new ≡ self.old }
    {
        self.full
    }
}
