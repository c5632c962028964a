//! Polls.
ghost use Rattle.std.specs.Prelude.{◌≡◌, ◌≤◌, if◌then◌else◌, length};
ghost use Rattle.rtc_peer_core.specs.Meanings.{meanings};
ghost use Rattle.rtc_peer_transport.specs.Stages.{RepeatsStage};
ghost use Rattle.rtc_peer_transport.specs.declared.met.Met.TheVariants.{Again, Nothing};
ghost use Rattle.rtc_peer_polling.specs.Walk.{RestsClosed, TellsArrivals, TellsConnection, VisitsParts};

use crate::polling_dtls::{has_come, poll_dtls_outputs, time_dtls};
use crate::polling_ice::poll_ice_events;
use crate::polling_media::{tell_fallible_media, tell_media};
use crate::polling_streams::poll_stream_events;
use crate::sending::{send_by_pair, send_checks};
use crate::sending_packets::send_kept_packets;
use rtc_parts::{Association, DtlsInstance, IceAgent, Ids, MediaSession, Reason};
use rtc_peer_core::RtcError;
use rtc_peer_transport::{Event, Handshake, Met, Output, PolledPeer};
use rtc_wire::{DATAGRAM_MAX_PACKET_SIZE, Moment};

// Room for a datagram of the DTLS part.
fn empty_buffer() -> [u8; DATAGRAM_MAX_PACKET_SIZE]
    ensures { length result ≡ 2000 }
{
    [0u8; DATAGRAM_MAX_PACKET_SIZE]
}

// A walk starts over if a moment that the DTLS part asked for is reached.
fn again_when<E>(due: bool) -> Met<E>
    ensures { result ≡ (if due then Again else Nothing) }
{
    if due {
        return Met::Again;
    }
    Met::Nothing
}

#[tactic(auto, unfolding(crate::specs::Walk::TellsConnection))]
fn tell_connection<I: IceAgent, D: DtlsInstance, S: Association, M: MediaSession, N: Ids>(
    peer: &mut PolledPeer<I, D, S, M, N>,
    buf: &mut [u8],
) -> Met<M::E>
    requires { 2000 ≤ length buf.old }
    ensures { TellsConnection (meanings I.ice D.dtls S.association M.media N.ids) peer.old result peer.new }
{
    match poll_ice_events(peer) {
        Met::Nothing => {}
        met => return met,
    }
    match time_dtls(peer) {
        Met::Nothing => {}
        met => return met,
    }
    match poll_dtls_outputs(peer, buf) {
        Met::Nothing => {}
        met => return met,
    }
    match peer.transport.handshake {
        Handshake::Finished => {
            peer.transport.handshake = Handshake::Told;
            Met::Event(Event::Connected)
        }
        Handshake::Pending | Handshake::Told => Met::Nothing,
    }
}

#[tactic(auto, unfolding(crate::specs::Walk::TellsArrivals))]
fn tell_arrivals<I: IceAgent, D: DtlsInstance, S: Association, M: MediaSession, N: Ids>(
    peer: &mut PolledPeer<I, D, S, M, N>,
) -> Met<M::E>
    ensures { TellsArrivals (meanings I.ice D.dtls S.association M.media N.ids) peer.old result peer.new }
{
    match tell_media(peer) {
        Met::Nothing => {}
        met => return met,
    }
    match tell_fallible_media(peer) {
        Met::Nothing => {}
        met => return met,
    }
    peer.tell_statistics()
}

#[tactic(auto, unfolding(crate::specs::Walk::VisitsParts))]
fn visit_parts<I: IceAgent, D: DtlsInstance, S: Association, M: MediaSession, N: Ids>(
    peer: &mut PolledPeer<I, D, S, M, N>,
    buf: &mut [u8],
) -> Met<M::E>
    requires { 2000 ≤ length buf.old }
    ensures { VisitsParts (meanings I.ice D.dtls S.association M.media N.ids) peer.old result peer.new }
{
    match tell_connection(peer, buf) {
        Met::Nothing => {}
        met => return met,
    }
    match poll_stream_events(peer) {
        Met::Nothing => {}
        met => return met,
    }
    match send_kept_packets(peer) {
        Met::Nothing => {}
        met => return met,
    }
    match tell_arrivals(peer) {
        Met::Nothing => {}
        met => return met,
    }
    match send_checks(peer) {
        Met::Nothing => {}
        met => return met,
    }
    match send_by_pair(peer) {
        Met::Nothing => {}
        met => return met,
    }
    again_when(has_come(peer.transport.dtls_wake, peer.core.greatest))
}

fn walk<I: IceAgent, D: DtlsInstance, S: Association, M: MediaSession, N: Ids>(
    peer: &mut PolledPeer<I, D, S, M, N>,
    buf: &mut [u8],
) -> Met<M::E>
    requires { 2000 ≤ length buf.old }
    ensures { RepeatsStage (VisitsParts (meanings I.ice D.dtls S.association M.media N.ids)) peer.old result peer.new }
{
    match visit_parts(peer, buf) {
        Met::Again => {}
        met => return met,
    }
    'visits: loop {
        match visit_parts(peer, buf) {
            Met::Again => {}
            met => return met,
        }
    }
}

/// Visits the parts up to the first thing that they give, over and over while a visit starts over.
pub fn visit<I: IceAgent, D: DtlsInstance, S: Association, M: MediaSession, N: Ids>(
    peer: &mut PolledPeer<I, D, S, M, N>,
) -> Met<M::E>
    ensures { RepeatsStage (VisitsParts (meanings I.ice D.dtls S.association M.media N.ids)) peer.old result peer.new }
{
    let mut buf = empty_buffer();
    walk(peer, &mut buf)
}

/// A timeout that a closed peer returns: it waits for nothing.
pub fn rest<I: IceAgent, D: DtlsInstance, S: Association, M: MediaSession, N: Ids>(
    peer: &mut PolledPeer<I, D, S, M, N>,
) -> Result<Output<M::E>, RtcError>
    ensures { RestsClosed peer.old result peer.new }
{
    peer.transport.last_reason = Reason::NotHappening;
    Ok(Output::Timeout(Moment::FAR_FUTURE))
}
