//! Statistics as they are reported.
use crate::{MediaEgressStats, MediaIngressStats, PeerStats};

/// One report of a round of statistics.
#[derive(Clone, Copy, Debug, PartialEq, Eq)]
pub enum StatsEvent {
    Peer(PeerStats),
    MediaIngress(MediaIngressStats),
    MediaEgress(MediaEgressStats),
}
