//! Statistics of a stream that is sent.
use crate::RemoteIngressStats;
use rtc_sdp_values::{Mid, Rid};
use rtc_wire::{Moment, Span};

/// What was sent on a line, or on a layer of it, up to a moment.
#[derive(Clone, Copy, Debug, PartialEq, Eq)]
pub struct MediaEgressStats {
    pub mid: Mid,
    pub rid: Option<Rid>,
    pub bytes: u64,
    pub packets: u64,
    /// Full intra requests received (RFC 5104, section 4.3.1).
    pub firs: u64,
    /// Picture loss indications received (RFC 4585, section 6.3.1).
    pub plis: u64,
    /// Negative acknowledgements received (RFC 4585, section 6.2.1).
    pub nacks: u64,
    pub rtt: Option<Span>,
    pub timestamp: Moment,
    pub remote: Option<RemoteIngressStats>,
}
