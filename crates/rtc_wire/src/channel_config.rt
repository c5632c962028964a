//! What a channel is opened with.
ghost use Rattle.std.specs.Prelude.{◌≡◌, ℕ, [], true, not, IfOk};
ghost use Rattle.std.specs.Prelude.{None};
ghost use Rattle.rtc_wire.specs.ChannelConfig.{
  fresh,
  config_of,
  fits_open_message as FitsOpenMessage,
  is_overlong as IsOverlong,
};

use crate::{DCEP_MAX_TEXT_SIZE, DcepOpen, Reliability, Text, TryCopy};
use std::alloc::{AllocError, Global};

/// Whether a label or protocol is too long for an open message (RFC 8832, section 5.1).
pub fn is_overlong(text: &Text) -> bool
    ensures { result ≡ IsOverlong text.now }
{
    text.as_str().len() > DCEP_MAX_TEXT_SIZE
}

/// What a data channel is opened with (RFC 8832, section 5.1; W3C WebRTC, section 6.2).
#[derive(Debug, PartialEq, Eq, Hash, Drop)]
pub struct ChannelConfig {
    pub label: Text,
    pub ordered: bool,
    pub reliability: Reliability,
    /// The SCTP stream, if the channel is negotiated out-of-band; None if the open message determines it.
    pub negotiated: Option<u16>,
    pub protocol: Text,
}

impl ChannelConfig {
    /// Ordered, reliable, announced by an open message, with no label and no protocol.
    pub fn new(alloc: Global) -> ChannelConfig
        ensures { result ≡ fresh }
    {
        ChannelConfig {
            label: Text::new(String::new(alloc)),
            ordered: true,
            reliability: Reliability::default(),
            negotiated: None,
            protocol: Text::new(String::new(alloc)),
        }
    }

    /// The config that an open message asks for.
    pub fn from_open(alloc: Global, d: &DcepOpen) -> Result<ChannelConfig, AllocError>
        ensures { IfOk result (λ made. made ≡ config_of d.now) }
    {
        let label = Text::from_str(alloc, d.label.as_str())?;
        let protocol = Text::from_str(alloc, d.protocol.as_str())?;
        Ok(ChannelConfig {
            label,
            ordered: !d.unordered,
            reliability: Reliability::from_parts(d.channel_type, d.reliability_parameter),
            negotiated: None,
            protocol,
        })
    }

    /// Whether its label and its protocol fit an open message (RFC 8832, section 5.1).
    pub fn fits_open_message(&self) -> bool
        ensures { result ≡ FitsOpenMessage self.now }
    {
        !is_overlong(&self.label) && !is_overlong(&self.protocol)
    }
}

impl TryCopy for ChannelConfig {
    fn copy(&self) -> Result<ChannelConfig, AllocError> {
        let label = self.label.copy()?;
        let protocol = self.protocol.copy()?;
        Ok(ChannelConfig {
            label,
            ordered: self.ordered,
            reliability: self.reliability,
            negotiated: self.negotiated,
            protocol,
        })
    }
}
