//! Statistics of the selected candidate pair.
use crate::CandidateStats;
use rtc_wire::{Protocol, Span};

/// The candidate pair over which datagrams go (RFC 8445, section 8.1.1).
#[derive(Clone, Copy, Debug, PartialEq, Eq)]
pub struct CandidatePairStats {
    pub protocol: Protocol,
    pub local: CandidateStats,
    pub remote: CandidateStats,
    /// Round-trip time of the last check that was answered.
    pub current_round_trip_time: Option<Span>,
    /// Sum of the round-trip times of all checks that were answered.
    pub total_round_trip_time: Span,
    pub responses_received: u64,
}
