//! What packets say.
use crate::Item;

/// What a packet says, with the bytes of its item: what contracts say of packets. `Header::read` reads a packet
/// without a copy of those bytes.
#[derive(Debug, PartialEq, Eq, Drop)]
pub enum Frame {
    /// The client asks for an answer.
    Hello,
    /// The server's answer.
    Welcome,
    /// An item and its number, beside the greatest number up to which all items of the other end were received.
    Data {
        acknowledged: u64,
        number: u64,
        item: Item,
    },
    /// That number alone.
    Acknowledgement(u64),
    Shutdown,
}
