//! What C opens a data channel with.
ghost use Rattle.std.specs.Prelude.{◌≡◌, IfOk};
ghost use Rattle.rtc_c_handle.specs.ChannelSettings.{config_of_channel, stream_wanted};

use rtc::{ChannelConfig, Reliability, Text};
use std::alloc::{AllocError, Global};

/// What a data channel is opened with, beside its texts. If all is 0, it is ordered, reliable, and announced in-band.
#[repr(C)]
#[derive(Clone, Copy, Debug, PartialEq, Eq)]
pub struct ChannelSettings {
    /// 0 resends a message until it arrives, 1 for `limit` milliseconds, 2 `limit` times.
    pub reliability: u32,
    pub limit: u16,
    /// The SCTP stream of a channel that is negotiated out-of-band.
    pub stream: u16,
    pub negotiated: bool,
    pub unordered: bool,
}

impl ChannelSettings {
    // The stream, if the channel is negotiated out-of-band.
    fn stream(&self) -> Option<u16>
        ensures { result ≡ stream_wanted self.now }
    {
        if self.negotiated {
            Some(self.stream)
        } else {
            None
        }
    }

    // The configuration of a channel with these texts.
    pub(crate) fn config(
        &self,
        alloc: Global,
        reliability: Reliability,
        label: &str,
        protocol: &str,
    ) -> Result<ChannelConfig, AllocError>
        ensures { IfOk result (λ config. config ≡ config_of_channel self.now reliability label.now protocol.now) }
    {
        let label = Text::from_str(alloc, label)?;
        let protocol = Text::from_str(alloc, protocol)?;
        Ok(ChannelConfig {
            label,
            ordered: !self.unordered,
            reliability,
            negotiated: self.stream(),
            protocol,
        })
    }
}
