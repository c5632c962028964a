//! How a channel resends.
use crate::TryCopy;
use std::alloc::AllocError;

/// What limits the resending of a channel's messages (RFC 8832, section 5.1).
#[derive(Clone, Copy, Debug, PartialEq, Eq)]
pub enum ReliabilityType {
    /// Nothing: each message is resent until it arrives.
    Reliable,
    /// A number of retransmissions.
    Rexmit,
    /// A time in milliseconds.
    Timed,
}

impl TryCopy for ReliabilityType {
    fn copy(&self) -> Result<ReliabilityType, AllocError> {
        Ok(*self)
    }
}
