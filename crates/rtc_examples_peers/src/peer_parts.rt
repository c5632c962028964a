//! The parts of a peer.

/// What a peer is built over.
#[derive(Drop)]
pub struct PeerParts<I, D, S, M, N> {
    pub ice: I,
    pub dtls: D,
    pub association: S,
    pub media: M,
    pub ids: N,
}
