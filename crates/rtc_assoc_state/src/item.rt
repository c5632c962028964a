//! Items.
use crate::ItemPart;
use rtc_wire::Bytes;

/// What is sent reliably and in order: a piece of a message of a stream, or the stream's close.
#[derive(Debug, PartialEq, Eq, Drop)]
pub struct Item {
    pub stream: u16,
    /// How often the stream was reset before.
    pub generation: u32,
    pub part: ItemPart,
    /// The payload protocol identifier of the message; 0 at a close.
    pub identifier: u32,
    pub bytes: Bytes,
}
