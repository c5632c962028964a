//! Packets of the association that go over the DTLS connection.
ghost use Rattle.std.specs.Prelude.{◌≡◌, ◌≤◌, ◌<◌, All, None, Some, drop, length};
ghost use Rattle.rtc_peer_core.specs.Meanings.{meanings};
ghost use Rattle.rtc_peer_polling.specs.StreamStages.{SendsFirst, SendsKeptPackets, left_over};

use rtc_parts::{Association, DtlsError, DtlsInstance, IceAgent, Ids, MediaSession};
use rtc_peer_core::RtcError;
use rtc_peer_transport::{Met, PolledPeer, close_out_of_memory, is_closing};
use rtc_sctp::RtcSctp;
use rtc_wire::{Bytes, Seq};

// Packets behind the first are pushed back, if there are any.
fn keep_rest<S: Association>(sctp: &mut RtcSctp<S>, mut packets: Vec<Bytes>)
    requires first { 0 < length packets.items }
    requires none { sctp.old.pushed ≡ None }
    requires short { All (λ packet. length packet ≤ 1900) packets.items }
    ensures { sctp.new ≡ record sctp.old { pushed = left_over (drop 1 packets.items) } }
{
    packets.remove(0);
    if !packets.is_empty() {
        let rest = Seq::new(packets);
        sctp.push_back_transmit(rest);
    }
}

fn send_first<I: IceAgent, D: DtlsInstance, S: Association, M: MediaSession, N: Ids>(
    peer: &mut PolledPeer<I, D, S, M, N>,
    packets: Vec<Bytes>,
) -> Met<M::E>
    requires none { peer.old.core.sctp.pushed ≡ None }
    requires short { All (λ packet. length packet ≤ 1900) packets.items }
    ensures { SendsFirst (meanings I.ice D.dtls S.association M.media N.ids) (Some packets.items) peer.old result peer.new }
{
    let Some(packet) = packets.first() else {
        return Met::Again;
    };
    match peer.core.dtls.handle_input(packet.as_slice()) {
        Ok(()) => {
            keep_rest(&mut peer.core.sctp, packets);
            Met::Again
        }
        Err(DtlsError::WouldBlock) => {
            peer.core.sctp.push_back_transmit(Seq::new(packets));
            Met::Nothing
        }
        Err(DtlsError::Fault) => {
            keep_rest(&mut peer.core.sctp, packets);
            if is_closing(peer.core.phase) {
                return Met::Again;
            }
            Met::Error(RtcError::Dtls(DtlsError::Fault))
        }
        Err(DtlsError::Alloc) => {
            keep_rest(&mut peer.core.sctp, packets);
            Met::Error(close_out_of_memory(&mut peer.core.phase))
        }
    }
}

/// Sends the first of the packets of the association that are kept over the DTLS connection.
pub fn send_kept_packets<I: IceAgent, D: DtlsInstance, S: Association, M: MediaSession, N: Ids>(
    peer: &mut PolledPeer<I, D, S, M, N>,
) -> Met<M::E>
    ensures { SendsKeptPackets (meanings I.ice D.dtls S.association M.media N.ids) peer.old result peer.new }
{
    match peer.core.sctp.take_pushed_back() {
        None => Met::Nothing,
        Some(packets) => send_first(peer, packets.into_vec()),
    }
}
