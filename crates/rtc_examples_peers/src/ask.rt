//! What a peer is asked that polls bring about.

/// A question to a peer. Hosts are given by their numbers.
#[derive(Clone, Copy)]
pub enum Ask {
    /// Whether datagrams, messages and media can go both ways.
    IsConnected,
    /// Whether a DTLS packet from the first host to the second one is for the peer.
    Accepts(u8, u8),
}
