//! Messages of data channels.
use rtc_wire::{Bytes, ChannelId};

/// A received message of a data channel.
#[derive(Debug, PartialEq, Eq, Drop)]
pub struct ChannelData {
    pub id: ChannelId,
    /// Whether it is binary; it is text otherwise (RFC 8831, section 6.6).
    pub binary: bool,
    pub bytes: Bytes,
}
