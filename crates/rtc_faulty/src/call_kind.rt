//! Kinds of calls.

/// What a call of a part is for.
#[derive(Clone, Copy, Debug, PartialEq, Eq)]
pub enum CallKind {
    /// Asks what the part is, or when it wants a timeout, and changes nothing.
    Reading,
    /// Gives a packet of the other side.
    Packet,
    /// Gives a moment (`handle_timeout`).
    Timeout,
    /// Polls an event, a packet or a datagram.
    Poll,
    /// Reads a message of a stream.
    Message,
    /// Every other call that may change the part.
    Change,
}
