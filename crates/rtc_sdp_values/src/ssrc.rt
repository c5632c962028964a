//! Synchronization sources (SSRC).
use rtc_wire::TryCopy;
use std::alloc::AllocError;

/// The number of a stream of packets (RFC 3550, section 3).
#[derive(Clone, Copy, Debug, PartialEq, Eq)]
pub struct Ssrc(pub u32);

impl TryCopy for Ssrc {
    fn copy(&self) -> Result<Ssrc, AllocError> {
        Ok(*self)
    }
}
