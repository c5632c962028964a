//! What a poll reports.
ghost use Rattle.std.specs.Prelude.{◌≡◌};
ghost use Rattle.std.specs.Option.{option_copied};
ghost use Rattle.rtc_peer_transport.specs.RawPackets.{raw_packet_of};

use crate::ChannelData;
use rtc_parts::{
    IceConnectionState, MediaEgressStats, MediaEvent, MediaIngressStats, PeerStats, RawPacket,
};
use rtc_wire::{ChannelId, Text};

/// Something that happened at a peer. `E` are the events of its media part.
#[derive(Debug, PartialEq, Eq, Drop)]
pub enum Event<E> {
    /// The DTLS handshake is finished; reported once.
    Connected,
    IceConnectionStateChange(IceConnectionState),
    /// A channel is open, with its label.
    ChannelOpen(ChannelId, Text),
    ChannelData(ChannelData),
    ChannelClose(ChannelId),
    /// What a channel has buffered fell to its threshold.
    ChannelBufferedAmountLow(ChannelId),
    PeerStats(PeerStats),
    MediaIngressStats(MediaIngressStats),
    MediaEgressStats(MediaEgressStats),
    Media(E),
    /// The other side closed the connection.
    Closed,
}

impl<E: MediaEvent> Event<E> {
    /// The packet that a media event shows; None for every other event.
    pub fn as_raw_packet(&self) -> Option<&RawPacket>
        ensures { option_copied result ≡ raw_packet_of E.packet_of self.now }
    {
        match self {
            Event::Media(event) => event.raw_packet(),
            Event::Connected
            | Event::IceConnectionStateChange(_)
            | Event::ChannelOpen(_, _)
            | Event::ChannelData(_)
            | Event::ChannelClose(_)
            | Event::ChannelBufferedAmountLow(_)
            | Event::PeerStats(_)
            | Event::MediaIngressStats(_)
            | Event::MediaEgressStats(_)
            | Event::Closed => None,
        }
    }
}
