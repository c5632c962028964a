//! What the streams of an association give.
use rtc_wire::{Bytes, Seq, Text};

/// What a poll of the streams gives.
#[derive(Debug, PartialEq, Eq, Drop)]
pub enum SctpEvent {
    /// Packets for the other end.
    Transmit { packets: Seq<Bytes> },
    /// The stream is open, with the label of its channel.
    Open { id: u16, label: Text },
    /// The stream is closed. If a reset is pending, its `StreamResetComplete` follows.
    Close { id: u16, reset_pending: bool },
    /// The stream was reset at both ends: its number can be used again.
    StreamResetComplete { id: u16 },
    /// A message of the other end.
    Data { id: u16, binary: bool, bytes: Bytes },
    /// The unacknowledged bytes of the stream fell to its threshold.
    BufferedAmountLow { id: u16 },
    /// The other end shut the association down.
    AssociationLost,
}
