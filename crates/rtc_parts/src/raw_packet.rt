//! Packets as they cross the media part.
use rtc_wire::{Bytes, TryCopy};
use std::alloc::AllocError;

/// A media packet before it is protected or after its protection was taken off.
#[derive(Debug, PartialEq, Eq, Drop)]
pub enum RawPacket {
    RtcpTx(Bytes),
    RtcpRx(Bytes),
    RtpTx(Bytes),
    RtpRx(Bytes),
}

impl TryCopy for RawPacket {
    fn copy(&self) -> Result<RawPacket, AllocError> {
        match self {
            RawPacket::RtcpTx(bytes) => Ok(RawPacket::RtcpTx(bytes.copy()?)),
            RawPacket::RtcpRx(bytes) => Ok(RawPacket::RtcpRx(bytes.copy()?)),
            RawPacket::RtpTx(bytes) => Ok(RawPacket::RtpTx(bytes.copy()?)),
            RawPacket::RtpRx(bytes) => Ok(RawPacket::RtpRx(bytes.copy()?)),
        }
    }
}
