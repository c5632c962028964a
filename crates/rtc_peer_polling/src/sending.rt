//! Datagrams that a poll sends.
ghost use Rattle.std.specs.Prelude.{◌≡◌};
ghost use Rattle.rtc_peer_core.specs.Meanings.{meanings};
ghost use Rattle.rtc_peer_polling.specs.SendStages.{SendsChecks, SendsDtlsPacket, SendsMediaDatagram, SendsByPair, bytes_counted, sent_by};

use rtc_parts::{Association, DtlsInstance, IceAgent, Ids, MediaSession};
use rtc_peer_transport::{Met, PolledPeer, SendAddr};
use rtc_wire::{DatagramSend, Transmit};

/// A count of bytes with those of a datagram, at most `u64::MAX`.
pub fn count_bytes(count: u64, bytes: &[u8]) -> u64
    ensures { result ≡ bytes_counted count bytes.now }
{
    count.saturating_add(bytes.len() as u64)
}

// Bytes as they go by a pair of addresses.
fn address(sends: SendAddr, contents: DatagramSend) -> Transmit
    ensures { result ≡ sent_by sends contents }
{
    Transmit {
        proto: sends.proto,
        source: sends.source,
        destination: sends.destination,
        contents,
    }
}

/// Sends the next datagram of the ICE agent.
#[tactic(auto, unfolding(crate::specs::SendStages::SendsChecks))]
pub fn send_checks<I: IceAgent, D: DtlsInstance, S: Association, M: MediaSession, N: Ids>(
    peer: &mut PolledPeer<I, D, S, M, N>,
) -> Met<M::E>
    ensures { SendsChecks (meanings I.ice D.dtls S.association M.media N.ids) peer.old result peer.new }
{
    match peer.core.ice.poll_transmit() {
        None => Met::Nothing,
        Some(transmit) => {
            peer.transport.sent = count_bytes(peer.transport.sent, transmit.contents.as_slice());
            Met::Transmit(transmit)
        }
    }
}

#[tactic(auto, unfolding(crate::specs::SendStages::SendsDtlsPacket))]
fn send_dtls<I: IceAgent, D: DtlsInstance, S: Association, M: MediaSession, N: Ids>(
    peer: &mut PolledPeer<I, D, S, M, N>,
    sends: SendAddr,
) -> Met<M::E>
    ensures { SendsDtlsPacket (meanings I.ice D.dtls S.association M.media N.ids) sends peer.old result peer.new }
{
    match peer.core.dtls.poll_packet() {
        None => Met::Nothing,
        Some(packet) => {
            peer.transport.sent = count_bytes(peer.transport.sent, packet.as_slice());
            Met::Transmit(address(sends, packet))
        }
    }
}

#[tactic(auto, unfolding(crate::specs::SendStages::SendsMediaDatagram))]
fn send_media<I: IceAgent, D: DtlsInstance, S: Association, M: MediaSession, N: Ids>(
    peer: &mut PolledPeer<I, D, S, M, N>,
    sends: SendAddr,
) -> Met<M::E>
    ensures { SendsMediaDatagram (meanings I.ice D.dtls S.association M.media N.ids) sends peer.old result peer.new }
{
    match peer.core.media.poll_datagram(peer.core.greatest) {
        None => Met::Nothing,
        Some(datagram) => {
            peer.transport.sent = count_bytes(peer.transport.sent, datagram.as_slice());
            Met::Transmit(address(sends, datagram))
        }
    }
}

/// Sends the next packet or media datagram by the nominated pair. Before one is, feedback that waits is dropped.
pub fn send_by_pair<I: IceAgent, D: DtlsInstance, S: Association, M: MediaSession, N: Ids>(
    peer: &mut PolledPeer<I, D, S, M, N>,
) -> Met<M::E>
    ensures { SendsByPair (meanings I.ice D.dtls S.association M.media N.ids) peer.old result peer.new }
{
    let Some(sends) = peer.transport.send_addr else {
        peer.core.media.clear_feedback();
        return Met::Nothing;
    };
    match send_dtls(peer, sends) {
        Met::Nothing => {}
        met => return met,
    }
    send_media(peer, sends)
}
