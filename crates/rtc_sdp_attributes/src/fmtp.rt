//! Parameters of payload types.
use rtc_sdp_values::Pt;
use rtc_wire::{Text, TryCopy};
use std::alloc::AllocError;

/// The parameters that an `fmtp` attribute gives to a payload type (RFC 8866, section 6.15).
#[derive(Debug, PartialEq, Eq, Drop)]
pub struct Fmtp {
    pub pt: Pt,
    pub text: Text,
}

impl TryCopy for Fmtp {
    fn copy(&self) -> Result<Fmtp, AllocError> {
        let text = self.text.copy()?;
        Ok(Fmtp { pt: self.pt, text })
    }
}
