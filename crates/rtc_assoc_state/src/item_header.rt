//! What an item says beside its bytes.
use crate::ItemPart;

/// What an item says beside its bytes.
#[derive(Clone, Copy, Debug, PartialEq, Eq)]
pub struct ItemHeader {
    pub stream: u16,
    /// How often the stream was reset before.
    pub generation: u32,
    pub part: ItemPart,
    /// The payload protocol identifier of the message; 0 at a close.
    pub identifier: u32,
}
