//! Calls of a gateway, as values.
use rtc_wire::{Bytes, Text};

/// A call of a gateway.
#[derive(Debug, PartialEq, Eq, Drop)]
pub enum GateCall {
    /// A connection joins under a name.
    Join { name: Text },
    /// A connection leaves.
    Leave { conn: u32 },
    /// A piece of a connection's stream is received.
    Feed { conn: u32, piece: Bytes },
    /// A connection takes the frame that waited longest for it.
    Take { conn: u32 },
}
