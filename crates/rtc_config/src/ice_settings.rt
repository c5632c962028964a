//! Settings of the ICE part.
use rtc_sdp_values::IceCreds;
use rtc_wire::{Span, TryCopy};
use std::alloc::AllocError;

/// What the configuration of a peer says to its ICE agent (RFC 8445).
#[derive(Debug, PartialEq, Eq, Drop)]
pub struct IceSettings {
    /// Drawn if not set.
    pub credentials: Option<IceCreds>,
    /// Whether the agent is a lite one (RFC 8445, section 2.5).
    pub lite: bool,
    /// Time until a check is sent again for the first time (RFC 8445, section 14.3).
    pub initial_stun_rto: Span,
    /// The longest time until a check is sent again.
    pub max_stun_rto: Span,
    /// How often a check is sent again at most.
    pub max_stun_retransmits: u32,
}

impl TryCopy for IceSettings {
    fn copy(&self) -> Result<IceSettings, AllocError> {
        let credentials = self.credentials.copy()?;
        Ok(IceSettings {
            credentials,
            lite: self.lite,
            initial_stun_rto: self.initial_stun_rto,
            max_stun_rto: self.max_stun_rto,
            max_stun_retransmits: self.max_stun_retransmits,
        })
    }
}
