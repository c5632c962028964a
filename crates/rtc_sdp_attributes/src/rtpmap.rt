//! Codecs of payload types.
use rtc_sdp_values::Pt;
use rtc_wire::{Text, TryCopy};
use std::alloc::AllocError;

/// The codec that an `rtpmap` attribute gives to a payload type (RFC 8866, section 6.6).
#[derive(Debug, PartialEq, Eq, Drop)]
pub struct Rtpmap {
    pub pt: Pt,
    pub codec: Text,
    /// Ticks a second.
    pub clock: u32,
    pub channels: u8,
}

impl TryCopy for Rtpmap {
    fn copy(&self) -> Result<Rtpmap, AllocError> {
        let codec = self.codec.copy()?;
        Ok(Rtpmap {
            pt: self.pt,
            codec,
            clock: self.clock,
            channels: self.channels,
        })
    }
}
