//! Packets on their way.
use rtc_wire::Bytes;

/// A packet that one of two ends transmitted.
#[derive(Debug, Drop)]
pub struct Sent {
    pub from_left: bool,
    pub bytes: Bytes,
}
