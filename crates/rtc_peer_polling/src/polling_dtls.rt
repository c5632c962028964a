//! What a poll takes from the DTLS connection.
ghost use Rattle.std.specs.Prelude.{◌≡◌, ◌≤◌, length};
ghost use Rattle.rtc_peer_core.specs.Meanings.{meanings};
ghost use Rattle.rtc_peer_polling.specs.DtlsStages.{TimesDtls, TakesCloseNotify, TakesDtlsOutput};
ghost use Rattle.rtc_peer_polling.specs.DtlsStages.{PollsDtlsOutputs, has_come as is_past};
ghost use Rattle.rtc_peer_polling.specs.DtlsStages.{finished_handshake, silenced_handshake};

use crate::checking::check_cert;
use rtc_parts::{Association, DtlsError, DtlsInstance, DtlsOutput, IceAgent, Ids, MediaSession};
use rtc_peer_core::{Phase, RtcError};
use rtc_peer_transport::{Event, Handshake, Met, PolledPeer, close_out_of_memory};
use rtc_wire::Moment;

/// Whether a moment that was asked for is reached.
pub fn has_come(moment: Moment, greatest: Moment) -> bool
    ensures { result ≡ is_past moment greatest }
{
    moment.nanos() != Moment::FAR_FUTURE.nanos() && moment.nanos() <= greatest.nanos()
}

fn finish(handshake: Handshake) -> Handshake
    ensures { result ≡ finished_handshake handshake }
{
    match handshake {
        Handshake::Pending | Handshake::Finished => Handshake::Finished,
        Handshake::Told => Handshake::Told,
    }
}

fn silence(handshake: Handshake) -> Handshake
    ensures { result ≡ silenced_handshake handshake }
{
    match handshake {
        Handshake::Pending => Handshake::Pending,
        Handshake::Finished | Handshake::Told => Handshake::Told,
    }
}

/// Gives the DTLS part a moment that it asked for, and that is reached.
#[tactic(auto, using(crate::proofs::DtlsTurns::given_when_due), unfolding(crate::specs::DtlsStages::GivesDtlsTime))]
pub fn time_dtls<I: IceAgent, D: DtlsInstance, S: Association, M: MediaSession, N: Ids>(
    peer: &mut PolledPeer<I, D, S, M, N>,
) -> Met<M::E>
    ensures { TimesDtls (meanings I.ice D.dtls S.association M.media N.ids) peer.old result peer.new }
{
    if !has_come(peer.transport.dtls_wake, peer.core.greatest) {
        return Met::Nothing;
    }
    match peer.core.dtls.handle_timeout(peer.core.greatest) {
        Ok(()) => Met::Nothing,
        Err(DtlsError::WouldBlock) => unreachable!(),
        Err(DtlsError::Fault) => {
            peer.core.phase = Phase::Closed;
            Met::Error(RtcError::Dtls(DtlsError::Fault))
        }
        Err(DtlsError::Alloc) => Met::Error(close_out_of_memory(&mut peer.core.phase)),
    }
}

#[tactic(auto, unfolding(crate::specs::DtlsStages::TakesCloseNotify))]
fn take_close_notify<I: IceAgent, D: DtlsInstance, S: Association, M: MediaSession, N: Ids>(
    peer: &mut PolledPeer<I, D, S, M, N>,
) -> Met<M::E>
    ensures { TakesCloseNotify (meanings I.ice D.dtls S.association M.media N.ids) peer.old result peer.new }
{
    match peer.close() {
        Ok(()) => {
            peer.transport.handshake = silence(peer.transport.handshake);
            Met::Event(Event::Closed)
        }
        Err(error) => Met::Error(error),
    }
}

#[tactic(auto, unfolding(crate::specs::DtlsStages::TakesKeys, crate::specs::DtlsStages::HandsPacket))]
fn take_dtls_output<I: IceAgent, D: DtlsInstance, S: Association, M: MediaSession, N: Ids>(
    peer: &mut PolledPeer<I, D, S, M, N>,
    output: &DtlsOutput<'_>,
) -> Met<M::E>
    ensures { TakesDtlsOutput (meanings I.ice D.dtls S.association M.media N.ids) output.now peer.old result peer.new }
{
    match output {
        DtlsOutput::Connected => {
            peer.transport.handshake = finish(peer.transport.handshake);
            Met::Again
        }
        DtlsOutput::KeyingMaterial(key, profile) => {
            let active = peer.core.dtls.is_active().unwrap_or(false);
            match peer.core.media.set_keying(key, *profile, active) {
                Ok(()) => Met::Again,
                Err(_) => Met::Error(close_out_of_memory(&mut peer.core.phase)),
            }
        }
        DtlsOutput::PeerCert(cert) => check_cert(peer, cert),
        DtlsOutput::ApplicationData(bytes) => {
            match peer.core.sctp.handle_input(peer.core.greatest, bytes) {
                Ok(()) => Met::Again,
                Err(_) => Met::Error(close_out_of_memory(&mut peer.core.phase)),
            }
        }
        DtlsOutput::Timeout(moment) => {
            peer.transport.dtls_wake = *moment;
            Met::Nothing
        }
        DtlsOutput::CloseNotify => take_close_notify(peer),
    }
}

/// Polls outputs of the connection up to the moment that it asks for.
pub fn poll_dtls_outputs<I: IceAgent, D: DtlsInstance, S: Association, M: MediaSession, N: Ids>(
    peer: &mut PolledPeer<I, D, S, M, N>,
    buf: &mut [u8],
) -> Met<M::E>
    requires { 2000 ≤ length buf.old }
    ensures { PollsDtlsOutputs (meanings I.ice D.dtls S.association M.media N.ids) peer.old result peer.new }
{
    'outputs: loop {
        match peer.core.dtls.poll_output(buf) {
            Ok(output) => match take_dtls_output(peer, &output) {
                Met::Again => {}
                met => return met,
            },
            Err(_) => return Met::Error(close_out_of_memory(&mut peer.core.phase)),
        }
    }
}
