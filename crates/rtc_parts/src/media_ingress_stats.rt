//! Statistics of a stream that is received.
ghost use Rattle.std.specs.Prelude.{◌≡◌};
ghost use Rattle.rtc_parts.specs.IngressStats.{merged, merged_remote};

use crate::RemoteEgressStats;
use rtc_sdp_values::{Mid, Rid};
use rtc_wire::{Moment, Span};

/// What was received on a line, or on a layer of it, up to a moment.
#[derive(Clone, Copy, Debug, PartialEq, Eq)]
pub struct MediaIngressStats {
    pub mid: Mid,
    pub rid: Option<Rid>,
    pub bytes: u64,
    pub packets: u64,
    /// Full intra requests sent (RFC 5104, section 4.3.1).
    pub firs: u64,
    /// Picture loss indications sent (RFC 4585, section 6.3.1).
    pub plis: u64,
    /// Negative acknowledgements sent (RFC 4585, section 6.2.1).
    pub nacks: u64,
    pub rtt: Option<Span>,
    pub timestamp: Moment,
    /// In ticks of the stream's clock.
    pub jitter: u32,
    pub remote: Option<RemoteEgressStats>,
}

/// The two reports added; the one that is there, if the other is not.
fn merge_remote(
    a: Option<RemoteEgressStats>,
    b: Option<RemoteEgressStats>,
) -> Option<RemoteEgressStats>
    ensures { result ≡ merged_remote a b }
{
    match a {
        None => b,
        Some(x) => match b {
            None => Some(x),
            Some(y) => Some(RemoteEgressStats {
                bytes: x.bytes.saturating_add(y.bytes),
                packets: x.packets.saturating_add(y.packets),
            }),
        },
    }
}

impl MediaIngressStats {
    /// Adds the counts of another report on the same line and layer, each at most `u64::MAX`. Jitter and round-trip
    /// time are those of the later report, the other one's if both are of one moment.
    pub fn merge_by_mid_rid(&mut self, other: &MediaIngressStats)
        requires mid { self.old.mid ≡ other.now.mid }
        requires rid { self.old.rid ≡ other.now.rid }
        ensures { self.new ≡ merged self.old other.now }
    {
        self.bytes = self.bytes.saturating_add(other.bytes);
        self.packets = self.packets.saturating_add(other.packets);
        self.firs = self.firs.saturating_add(other.firs);
        self.plis = self.plis.saturating_add(other.plis);
        self.nacks = self.nacks.saturating_add(other.nacks);
        self.remote = merge_remote(self.remote, other.remote);
        if self.timestamp.nanos() <= other.timestamp.nanos() {
            self.timestamp = other.timestamp;
            self.jitter = other.jitter;
            self.rtt = other.rtt;
        }
    }
}
