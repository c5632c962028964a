//! What the plain media part reports.
use rtc_parts::{MediaEvent, RawPacket};
use rtc_sdp_values::{Direction, MediaKind, Mid};

/// An event of the plain media part.
#[derive(Debug, PartialEq, Eq, Drop)]
pub enum PlainMediaEvent {
    /// An offer made a new line live.
    Added(Mid, MediaKind, Direction),
    /// The direction of a line changed.
    Changed(Mid, Direction),
    /// An RTP packet of so many bytes was received.
    Rtp(usize),
    /// An RTCP packet of so many bytes was received.
    Rtcp(usize),
    /// A packet, if raw packets are on.
    Raw(RawPacket),
}

impl MediaEvent for PlainMediaEvent {
    ghost use Rattle.rtc_plain_media.specs.PlainMediaEvent.{packet_shown};

    ghost packet_of = { packet_shown };

    fn raw_packet(&self) -> Option<&RawPacket> {
        match self {
            PlainMediaEvent::Raw(packet) => Some(packet),
            PlainMediaEvent::Added(_, _, _)
            | PlainMediaEvent::Changed(_, _)
            | PlainMediaEvent::Rtp(_)
            | PlainMediaEvent::Rtcp(_) => None,
        }
    }
}
