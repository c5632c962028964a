//! Payload types.
use rtc_wire::TryCopy;
use std::alloc::AllocError;

/// The number that names a format in a packet (RFC 3550, section 5.1).
#[derive(Clone, Copy, Debug, PartialEq, Eq)]
pub struct Pt(pub u8);

impl TryCopy for Pt {
    fn copy(&self) -> Result<Pt, AllocError> {
        Ok(*self)
    }
}
