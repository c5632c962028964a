//! Credentials of ICE.
use rtc_wire::{Text, TryCopy};
use std::alloc::AllocError;

/// The user name fragment and the password of a peer's ICE agent (RFC 8839, section 5.4).
#[derive(Debug, PartialEq, Eq, Drop)]
pub struct IceCreds {
    pub ufrag: Text,
    pub pass: Text,
}

impl TryCopy for IceCreds {
    fn copy(&self) -> Result<IceCreds, AllocError> {
        let ufrag = self.ufrag.copy()?;
        let pass = self.pass.copy()?;
        Ok(IceCreds { ufrag, pass })
    }
}
