//! Formats of a media line.
use crate::Pt;
use rtc_wire::{Text, TryCopy};
use std::alloc::AllocError;

/// A codec of a media line, with its payload types (RFC 8866, section 6.6).
#[derive(Debug, PartialEq, Eq, Drop)]
pub struct PayloadRow {
    pub pt: Pt,
    /// The payload type of its retransmissions (RFC 4588).
    pub rtx: Option<Pt>,
    /// The payload type of its redundant packets (RFC 2198).
    pub red: Option<Pt>,
    pub codec: Text,
    /// Ticks a second.
    pub clock: u32,
    pub channels: u8,
    /// Parameters as in the text; empty if there are none.
    pub fmtp: Text,
}

impl TryCopy for PayloadRow {
    fn copy(&self) -> Result<PayloadRow, AllocError> {
        let codec = self.codec.copy()?;
        let fmtp = self.fmtp.copy()?;
        Ok(PayloadRow {
            pt: self.pt,
            rtx: self.rtx,
            red: self.red,
            codec,
            clock: self.clock,
            channels: self.channels,
            fmtp,
        })
    }
}
