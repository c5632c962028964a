//! Steps at the peer that acts.
ghost use Rattle.std.specs.Prelude.{◌≡◌, ◌<◌, ◌^◌, List, length, true};
ghost use Rattle.rtc_run_history.specs.declared.kept.Kept.{Kept};
ghost use Rattle.rtc_run_history.specs.Performs.{Acts};
ghost use Rattle.rtc_run.specs.ConnectionSteps.{is_at_connection};
ghost use Rattle.rtc_peer_core.specs.Meanings.{meanings};
ghost use Rattle.rtc_peer.specs.CachedPeer.{polled_of};

use rtc_peer::{Association, DtlsInstance, IceAgent, Ids, MediaSession, Rtc};
use rtc_run_history::{Kept, Reply, SentPacket, Step};
use rtc_run_steps::{
    accept_foreign_answer, accept_foreign_offer, close, close_channel, deliver_and_accept_answer,
    deliver_and_accept_offer, drain, negotiate, poll, roll_offer_back, take_datagram, take_moment,
    take_raw, write_message,
};
use rtc_wire::Addr;
use std::alloc::Global;

// Performs a step at the connection of the peer that acts.
fn perform_connected<I: IceAgent, D: DtlsInstance, S: Association, M: MediaSession, N: Ids>(
    alloc: Global,
    rtc: &mut Rtc<I, D, S, M, N>,
    packets: &mut Vec<SentPacket>,
    other: Addr,
    own: Addr,
    step: &Step,
) -> Reply<M::E>
    requires connection { is_at_connection step.now ≡ true }
    ensures { (sdps : List Kept) → Acts (meanings I.ice D.dtls S.association M.media N.ids) I.stun other own step.now
        (polled_of rtc.old) sdps packets.old.items result.outcome result.table (polled_of rtc.new) sdps packets.new.items }
{
    match step {
        Step::Time { now, .. } => take_moment(alloc, rtc, *now),
        Step::Datagram { at, packet, now } => {
            take_datagram(alloc, rtc, packets.as_slice(), *at, *packet, *now)
        }
        Step::Poll { at } => poll(alloc, rtc, packets, *at),
        Step::Drain { at } => drain(alloc, rtc, packets, *at),
        Step::Write {
            channel,
            binary,
            bytes,
            ..
        } => write_message(alloc, rtc, *channel, *binary, bytes.as_slice()),
        Step::CloseChannel { channel, .. } => close_channel(alloc, rtc, *channel),
        Step::Close { .. } => close(alloc, rtc),
        Step::Raw { bytes, now, .. } => take_raw(alloc, rtc, other, own, bytes.as_slice(), *now),
        _ => unreachable!(),
    }
}

/// Performs a step at the peer that acts, given the addresses of the other side and of its own, with the session descriptions and the
/// datagrams of both peers.
pub fn perform_step<I: IceAgent, D: DtlsInstance, S: Association, M: MediaSession, N: Ids>(
    alloc: Global,
    rtc: &mut Rtc<I, D, S, M, N>,
    sdps: &mut Vec<Kept>,
    packets: &mut Vec<SentPacket>,
    other: Addr,
    own: Addr,
    step: &Step,
) -> Reply<M::E>
    requires count { length sdps.old.items < 2 ^ 32 }
    ensures { Acts (meanings I.ice D.dtls S.association M.media N.ids) I.stun other own step.now (polled_of rtc.old)
        sdps.old.items packets.old.items result.outcome result.table (polled_of rtc.new) sdps.new.items packets.new.items }
{
    match step {
        Step::Negotiate { at, ops, apply } => {
            negotiate(alloc, rtc, sdps, *at, ops.as_slice(), *apply)
        }
        Step::AcceptOffer { at, offer } => deliver_and_accept_offer(alloc, rtc, sdps, *at, *offer),
        Step::AcceptAnswer { at, token, answer } => {
            deliver_and_accept_answer(alloc, rtc, sdps, *at, *token, *answer)
        }
        Step::Rollback { at, token } => roll_offer_back(alloc, rtc, sdps, *at, *token),
        Step::ForeignOffer { at, text } => {
            accept_foreign_offer(alloc, rtc, sdps, *at, text.as_str())
        }
        Step::ForeignAnswer { at, token, text } => {
            accept_foreign_answer(alloc, rtc, sdps, *at, *token, text.as_str())
        }
        _ => perform_connected(alloc, rtc, packets, other, own, step),
    }
}
