//! Datagrams that a peer receives.
ghost use Rattle.rtc_wire.specs.DatagramRecv.{kind_by};
ghost use Rattle.rtc_peer_core.specs.Meanings.{meanings};
ghost use Rattle.rtc.specs.Receives.{ReceivesDatagram};
ghost use Rattle.rtc_peer.specs.CachedPeer.{polled_of};

use rtc_peer::{Association, DtlsInstance, IceAgent, Ids, Input, MediaSession, Rtc, RtcError};
use rtc_wire::{Moment, Receive, Transmit};

/// Gives a peer a datagram that was received at a moment, with its addresses as the other side sent it.
///
/// One of no kind is refused as `Net`, and the peer is unchanged.
pub fn receive<I: IceAgent, D: DtlsInstance, S: Association, M: MediaSession, N: Ids>(
    peer: &mut Rtc<I, D, S, M, N>,
    now: Moment,
    datagram: &Transmit,
) -> Result<(), RtcError>
    ensures { ReceivesDatagram (meanings I.ice D.dtls S.association M.media N.ids)
        (kind_by I.stun datagram.now.contents) datagram.now now (polled_of peer.old) result (polled_of peer.new) }
{
    match Receive::from_transmit::<I>(datagram) {
        Ok(received) => peer.handle_input(&Input::Receive(now, received)),
        Err(why) => Err(RtcError::Net(why)),
    }
}
