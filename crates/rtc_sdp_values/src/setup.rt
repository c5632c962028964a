//! DTLS roles in session descriptions.
use rtc_wire::TryCopy;
use std::alloc::AllocError;

/// Which side opens the DTLS handshake (RFC 8842, section 5).
#[derive(Clone, Copy, Debug, PartialEq, Eq)]
pub enum Setup {
    ActPass,
    Active,
    Passive,
}

impl TryCopy for Setup {
    fn copy(&self) -> Result<Setup, AllocError> {
        Ok(*self)
    }
}
