//! Inputs.
ghost use Rattle.rtc_peer_core.specs.Meanings.{meanings};
ghost use Rattle.rtc_peer_polling.specs.Inputs.{TimesIce, TimesMedia, TakesTime};
ghost use Rattle.rtc_peer_polling.specs.Inputs.{HearsStun, HearsDtls, HearsKind, HandlesInput};

use crate::sending::count_bytes;
use crate::timing::{time_handler, time_sctp};
use rtc_parts::{Association, DtlsError, DtlsInstance, IceAgent, Ids, MediaError, MediaSession};
use rtc_peer_core::{Phase, RtcError};
use rtc_peer_transport::{Input, PolledPeer, close_out_of_memory};
use rtc_wire::{DatagramRecv, Moment, Receive, StunView};

#[tactic(auto, unfolding(crate::specs::Inputs::TimesIce))]
fn time_ice<I: IceAgent, D: DtlsInstance, S: Association, M: MediaSession, N: Ids>(
    peer: &mut PolledPeer<I, D, S, M, N>,
    now: Moment,
) -> Result<(), RtcError>
    ensures { TimesIce (meanings I.ice D.dtls S.association M.media N.ids) now peer.old result peer.new }
{
    match peer.core.ice.handle_timeout(now) {
        Ok(()) => Ok(()),
        Err(_) => Err(close_out_of_memory(&mut peer.core.phase)),
    }
}

#[tactic(auto, unfolding(crate::specs::Inputs::TimesMedia))]
fn time_media<I: IceAgent, D: DtlsInstance, S: Association, M: MediaSession, N: Ids>(
    peer: &mut PolledPeer<I, D, S, M, N>,
    now: Moment,
) -> Result<(), RtcError>
    ensures { TimesMedia (meanings I.ice D.dtls S.association M.media N.ids) now peer.old result peer.new }
{
    match peer.core.media.handle_timeout(now) {
        Ok(()) => Ok(()),
        Err(error) => match error {
            MediaError::Alloc => Err(close_out_of_memory(&mut peer.core.phase)),
            cause => Err(RtcError::Media(cause)),
        },
    }
}

#[tactic(auto, unfolding(crate::specs::Inputs::TimesStreams, crate::specs::Inputs::TimesChannels))]
fn take_time<I: IceAgent, D: DtlsInstance, S: Association, M: MediaSession, N: Ids>(
    peer: &mut PolledPeer<I, D, S, M, N>,
    now: Moment,
) -> Result<(), RtcError>
    ensures { TakesTime (meanings I.ice D.dtls S.association M.media N.ids) now peer.old result peer.new }
{
    if now.nanos() < peer.core.greatest.nanos() {
        return Ok(());
    }
    peer.core.greatest = now;
    match time_ice(peer, now) {
        Ok(()) => {}
        Err(error) => return Err(error),
    }
    match time_sctp(&mut peer.core.sctp, now) {
        Ok(()) => {}
        Err(_) => return Err(close_out_of_memory(&mut peer.core.phase)),
    }
    match time_handler(&mut peer.core.channels, &mut peer.core.sctp, now) {
        Ok(()) => {}
        Err(_) => return Err(close_out_of_memory(&mut peer.core.phase)),
    }
    match time_media(peer, now) {
        Ok(()) => {}
        Err(error) => return Err(error),
    }
    peer.time_statistics(now)
}

#[tactic(auto, unfolding(crate::specs::Inputs::HearsStun))]
fn hear_stun<I: IceAgent, D: DtlsInstance, S: Association, M: MediaSession, N: Ids>(
    peer: &mut PolledPeer<I, D, S, M, N>,
    now: Moment,
    datagram: &Receive<'_>,
    message: &StunView<'_>,
) -> Result<(), RtcError>
    ensures { HearsStun (meanings I.ice D.dtls S.association M.media N.ids)
        now datagram.now message.now.bytes.now peer.old result peer.new }
{
    match peer.core.ice.handle_packet(
        now,
        datagram.proto,
        datagram.source,
        datagram.destination,
        message,
    ) {
        Ok(()) => Ok(()),
        Err(_) => Err(close_out_of_memory(&mut peer.core.phase)),
    }
}

#[tactic(auto, unfolding(crate::specs::Inputs::HearsDtls))]
fn hear_dtls<I: IceAgent, D: DtlsInstance, S: Association, M: MediaSession, N: Ids>(
    peer: &mut PolledPeer<I, D, S, M, N>,
    bytes: &[u8],
) -> Result<(), RtcError>
    ensures { HearsDtls (meanings I.ice D.dtls S.association M.media N.ids) bytes.now peer.old result peer.new }
{
    peer.transport.received = count_bytes(peer.transport.received, bytes);
    match peer.core.dtls.handle_receive(bytes) {
        Ok(()) => Ok(()),
        Err(DtlsError::WouldBlock) => unreachable!(),
        Err(DtlsError::Fault) => Err(RtcError::Dtls(DtlsError::Fault)),
        Err(DtlsError::Alloc) => Err(close_out_of_memory(&mut peer.core.phase)),
    }
}

#[tactic(auto, unfolding(crate::specs::Inputs::HearsMedia))]
fn hear_kind<I: IceAgent, D: DtlsInstance, S: Association, M: MediaSession, N: Ids>(
    peer: &mut PolledPeer<I, D, S, M, N>,
    now: Moment,
    datagram: &Receive<'_>,
    contents: &DatagramRecv<'_>,
) -> Result<(), RtcError>
    ensures { HearsKind (meanings I.ice D.dtls S.association M.media N.ids) now datagram.now contents.now peer.old result peer.new }
{
    match contents {
        DatagramRecv::Stun(message) => hear_stun(peer, now, datagram, message),
        DatagramRecv::Dtls(bytes) => hear_dtls(peer, bytes),
        DatagramRecv::Rtp(bytes) => {
            peer.transport.received = count_bytes(peer.transport.received, bytes);
            match peer.core.media.handle_rtp(now, bytes) {
                Ok(()) => Ok(()),
                Err(_) => Err(close_out_of_memory(&mut peer.core.phase)),
            }
        }
        DatagramRecv::Rtcp(bytes) => {
            peer.transport.received = count_bytes(peer.transport.received, bytes);
            match peer.core.media.handle_rtcp(now, bytes) {
                Ok(()) => Ok(()),
                Err(_) => Err(close_out_of_memory(&mut peer.core.phase)),
            }
        }
    }
}

/// Takes a moment or a datagram. A moment before the greatest that was taken changes no time. A datagram is given to
/// its part, and its moment is taken if the part does not fail. A closed peer ignores every input.
pub fn handle_input<I: IceAgent, D: DtlsInstance, S: Association, M: MediaSession, N: Ids>(
    peer: &mut PolledPeer<I, D, S, M, N>,
    input: &Input<'_>,
) -> Result<(), RtcError>
    ensures { HandlesInput (meanings I.ice D.dtls S.association M.media N.ids) input.now peer.old result peer.new }
{
    match peer.core.phase {
        Phase::Alive | Phase::Closing => match input {
            Input::Timeout(now) => take_time(peer, *now),
            Input::Receive(now, datagram) => {
                match hear_kind(peer, *now, datagram, &datagram.contents) {
                    Ok(()) => {}
                    Err(error) => return Err(error),
                }
                take_time(peer, *now)
            }
        },
        Phase::Closed => Ok(()),
    }
}
