//! What a peer reports of a channel.
use rtc_wire::{ChannelId, TryCopy};
use std::alloc::AllocError;

/// A data channel of a peer, as its table shows it.
#[derive(Clone, Copy, Debug, PartialEq, Eq)]
pub struct ChannelRow {
    pub id: ChannelId,
    /// The SCTP stream that it was given.
    pub stream: Option<u16>,
    /// How often that stream was reset before; 0 if there is no stream.
    pub generation: u64,
    pub is_open: bool,
}

impl TryCopy for ChannelRow {
    fn copy(&self) -> Result<ChannelRow, AllocError> {
        Ok(*self)
    }
}
