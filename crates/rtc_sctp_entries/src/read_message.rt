//! What is read of a message that may open a channel.
use rtc_wire::{ChannelConfig, Text};

/// What is read of a message that may open a channel: its label and its config.
#[derive(Debug, Drop)]
pub enum ReadMessage {
    Open(Text, ChannelConfig),
    Malformed,
    OutOfMemory,
}
