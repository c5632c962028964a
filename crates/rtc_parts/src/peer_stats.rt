//! Statistics of a peer.
use crate::CandidatePairStats;
use rtc_wire::{Moment, Span};

/// What a peer sent and received up to a moment. Counts are of bytes.
#[derive(Clone, Copy, Debug, PartialEq, Eq)]
pub struct PeerStats {
    /// All bytes of datagrams received.
    pub peer_bytes_rx: u64,
    /// All bytes of datagrams sent.
    pub peer_bytes_tx: u64,
    /// Bytes of media received.
    pub bytes_rx: u64,
    /// Bytes of media sent.
    pub bytes_tx: u64,
    pub timestamp: Moment,
    pub rtt: Option<Span>,
    pub selected_candidate_pair: Option<CandidatePairStats>,
}
