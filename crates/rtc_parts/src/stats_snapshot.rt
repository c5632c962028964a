//! Statistics as they are gathered.
ghost use Rattle.std.specs.Prelude.{◌≡◌, None};
ghost use Rattle.std.specs.BTreeMap.{IsEmpty};

use crate::{CandidatePairStats, MediaEgressStats, MediaIngressStats};
use rtc_sdp_values::{Mid, Rid};
use rtc_wire::{Moment, Span};
use std::alloc::Global;
use std::collections::BTreeMap;

/// What the parts of a peer report at a moment. Counts are of bytes.
#[derive(Debug, PartialEq, Eq, Drop)]
pub struct StatsSnapshot {
    /// All bytes of datagrams sent.
    pub peer_tx: u64,
    /// All bytes of datagrams received.
    pub peer_rx: u64,
    /// Bytes of media sent.
    pub tx: u64,
    /// Bytes of media received.
    pub rx: u64,
    pub rtt: Option<Span>,
    pub ingress: BTreeMap<(Mid, Option<Rid>), MediaIngressStats>,
    pub egress: BTreeMap<(Mid, Option<Rid>), MediaEgressStats>,
    pub selected_candidate_pair: Option<CandidatePairStats>,
    pub timestamp: Moment,
}

impl StatsSnapshot {
    /// A snapshot of a moment with no count and no report. No memory is taken.
    pub fn new(alloc: Global, timestamp: Moment) -> StatsSnapshot
        ensures peer_tx { result.peer_tx ≡ 0 }
        ensures peer_rx { result.peer_rx ≡ 0 }
        ensures tx { result.tx ≡ 0 }
        ensures rx { result.rx ≡ 0 }
        ensures rtt { result.rtt ≡ None }
        ensures ingress { IsEmpty result.ingress }
        ensures egress { IsEmpty result.egress }
        ensures pair { result.selected_candidate_pair ≡ None }
        ensures timestamp { result.timestamp ≡ timestamp }
    {
        StatsSnapshot {
            peer_tx: 0,
            peer_rx: 0,
            tx: 0,
            rx: 0,
            rtt: None,
            ingress: BTreeMap::new(alloc),
            egress: BTreeMap::new(alloc),
            selected_candidate_pair: None,
            timestamp,
        }
    }
}
