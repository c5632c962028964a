//! Offers and answers that a peer accepts.
ghost use Rattle.std.specs.Prelude.{◌≡◌, ◌+◌, ◌<◌, ◌≤◌, ◌^◌, ◌++◌, [], ◌∷◌, length, Some, None, true, false};
ghost use Rattle.std.specs.Prelude.{IsTrue, IsSome, IfSome, IfNone, OnSome, is_some, slice_get};
ghost use Rattle.std.specs.Option.{option_copied};
ghost use Rattle.rtc_peer_core.specs.Acceptances.{AcceptsAnswer, AcceptsOffer};
ghost use Rattle.rtc_peer.specs.Described.{sdp_of_answer};
ghost use Rattle.rtc_run_history.specs.Sides.{same_side};
ghost use Rattle.rtc_run_history.specs.PairState.{sent_sdp, kept_remote_sdp, held_token, spent};
ghost use Rattle.rtc_run_history.specs.Performs.{StepAcceptsAnswer, StepAcceptsOffer, kept_answer, lent};
ghost use Rattle.rtc_run_history.specs.Signalled.{Readable, signalled};
ghost use Rattle.rtc_peer_core.specs.Meanings.{meanings};
ghost use Rattle.rtc_run_steps.specs.Brings.{Brings};

use crate::brought::Brought;
use crate::{
    deliver, is_same_side, make_room, reply_no_memory, reply_no_such, reply_unread, reply_with,
    room_for,
};
use rtc_change::SdpPendingOffer;
use rtc_lines::{SdpAnswer, SdpOffer};
use rtc_peer::{Association, DtlsInstance, IceAgent, Ids, MediaSession, Rtc, RtcError};
use rtc_run_history::{Kept, Outcome, Reply, Side};
use rtc_sdp_values::{Sdp, SdpError};
use rtc_wire_drops::release;
use std::alloc::Global;

// The offer (or answer) of a number, if the other side made it.
fn find_sdp(sdps: &[Kept], offer: bool, at: Side, number: u32) -> Option<&Sdp>
    ensures { option_copied result ≡ sent_sdp offer sdps.now at number }
{
    match sdps.get(number as usize) {
        None => None,
        Some(kept) => {
            if kept.offer == offer && !is_same_side(kept.at, at) {
                Some(&kept.sdp)
            } else {
                None
            }
        }
    }
}

// What arrives of a session description that is sent.
#[tactic(auto, unfolding(rtc_run_history::specs::Signalled::signalled))]
fn bring_sent(alloc: Global, sdp: &Sdp) -> Brought
    ensures { Brings result (signalled sdp.now) }
{
    match deliver(alloc, sdp) {
        Ok(delivered) => Brought::Readable(delivered),
        Err(SdpError::Parse(line)) => Brought::Unreadable(line),
        Err(SdpError::Inconsistent(_)) => Brought::Alloc,
        Err(SdpError::Alloc) => Brought::Alloc,
    }
}

// What signalling delivers of the offer (or answer) of a number.
fn bring(alloc: Global, sdps: &[Kept], offer: bool, at: Side, number: u32) -> Brought
    ensures { Brings result (kept_remote_sdp offer sdps.now at number) }
{
    match find_sdp(sdps, offer, at, number) {
        None => Brought::NotMade,
        Some(sdp) => bring_sent(alloc, sdp),
    }
}

// The answer as the pair keeps it.
fn keep_answer(at: Side, answer: SdpAnswer) -> Kept
    ensures { result ≡ kept_answer at answer.0 }
{
    Kept {
        at,
        offer: false,
        sdp: answer.0,
        token: None,
    }
}

fn accept_offer<I: IceAgent, D: DtlsInstance, S: Association, M: MediaSession, N: Ids>(
    rtc: &mut Rtc<I, D, S, M, N>,
    offer: SdpOffer,
) -> Result<SdpAnswer, RtcError>
    ensures accepts { AcceptsOffer (meanings I.ice D.dtls S.association M.media N.ids)
        (lent rtc.old.core) offer.0 (sdp_of_answer result) rtc.new.core }
    ensures rows { length rtc.new.core.lines ≤ length rtc.old.core.lines + length offer.0.lines }
    ensures channels { length rtc.new.core.channels.rows ≡ length rtc.old.core.channels.rows }
    ensures connection { rtc.new.transport ≡ rtc.old.transport }
{
    rtc.sdp_api().accept_offer(offer)
}

// Has a peer accept or refuse an offer that was delivered, if there is memory for the reply.
pub(crate) fn accept_delivered_offer<
    I: IceAgent,
    D: DtlsInstance,
    S: Association,
    M: MediaSession,
    N: Ids,
>(
    alloc: Global,
    rtc: &mut Rtc<I, D, S, M, N>,
    sdps: &mut Vec<Kept>,
    at: Side,
    delivered: Sdp,
) -> Reply<M::E>
    requires count { length sdps.old.items < 2 ^ 32 }
    ensures connection { rtc.new.transport ≡ rtc.old.transport }
    ensures accepts { StepAcceptsOffer (meanings I.ice D.dtls S.association M.media N.ids)
        at (Readable delivered) rtc.old.core sdps.old.items result.outcome result.table rtc.new.core sdps.new.items }
{
    let Ok(room) = make_room(alloc, rtc, delivered.lines.len(), 0, sdps) else {
        return release(delivered, reply_no_memory());
    };
    match accept_offer(rtc, SdpOffer(delivered)) {
        Ok(answer) => {
            let text = sdps.len() as u32;
            sdps.push_reserved(keep_answer(at, answer));
            reply_with(Outcome::Answered { text }, room, rtc)
        }
        Err(error) => reply_with(Outcome::Refused(error), room, rtc),
    }
}

/// Delivers the offer of a number to a peer, which accepts or refuses it. What cannot be read does not reach the peer.
pub fn deliver_and_accept_offer<
    I: IceAgent,
    D: DtlsInstance,
    S: Association,
    M: MediaSession,
    N: Ids,
>(
    alloc: Global,
    rtc: &mut Rtc<I, D, S, M, N>,
    sdps: &mut Vec<Kept>,
    at: Side,
    offer: u32,
) -> Reply<M::E>
    requires count { length sdps.old.items < 2 ^ 32 }
    ensures connection { rtc.new.transport ≡ rtc.old.transport }
    ensures accepts { StepAcceptsOffer (meanings I.ice D.dtls S.association M.media N.ids)
        at (kept_remote_sdp true sdps.old.items at offer) rtc.old.core sdps.old.items
        result.outcome result.table rtc.new.core sdps.new.items }
{
    match bring(alloc, sdps.as_slice(), true, at, offer) {
        Brought::NotMade => reply_no_such(alloc, rtc),
        Brought::Unreadable(line) => reply_unread(alloc, rtc, line),
        Brought::Readable(delivered) => accept_delivered_offer(alloc, rtc, sdps, at, delivered),
        Brought::Alloc => reply_no_memory(),
    }
}

// Whether a side holds the token of a number.
pub(crate) fn has_token(sdps: &[Kept], at: Side, number: u32) -> bool
    ensures some { result ≡ is_some (held_token sdps.now at number) }
    ensures within { IsTrue result → number < length sdps.now }
    ensures side { IsTrue result → IfSome (slice_get sdps.now number) (λ kept. same_side kept.at at ≡ true) }
{
    match sdps.get(number as usize) {
        None => false,
        Some(kept) => is_same_side(kept.at, at) && kept.token.is_some(),
    }
}

// The token of a number, if this side holds it. It is spent then.
pub(crate) fn take_token(sdps: &mut Vec<Kept>, at: Side, number: u32) -> Option<SdpPendingOffer>
    ensures token { result ≡ held_token sdps.old.items at number }
    ensures spent { OnSome result (sdps.new.items ≡ spent number sdps.old.items) }
    ensures none { IfNone result (sdps.new.items ≡ sdps.old.items) }
{
    if !has_token(sdps, at, number) {
        return None;
    }
    let kept = &mut sdps[number as usize];
    kept.token.take()
}

fn accept_answer<I: IceAgent, D: DtlsInstance, S: Association, M: MediaSession, N: Ids>(
    rtc: &mut Rtc<I, D, S, M, N>,
    pending: SdpPendingOffer,
    answer: SdpAnswer,
) -> Result<(), RtcError>
    ensures accepts { AcceptsAnswer (meanings I.ice D.dtls S.association M.media N.ids)
        (lent rtc.old.core) pending answer.0 result rtc.new.core }
    ensures rows { length rtc.new.core.lines ≤ length rtc.old.core.lines + length answer.0.lines }
    ensures channels { length rtc.new.core.channels.rows ≡ length rtc.old.core.channels.rows }
    ensures connection { rtc.new.transport ≡ rtc.old.transport }
{
    rtc.sdp_api().accept_answer(pending, answer)
}

// Has a peer accept or refuse an answer that was delivered, with the token of a number, if there is memory for the reply.
pub(crate) fn accept_delivered_answer<
    I: IceAgent,
    D: DtlsInstance,
    S: Association,
    M: MediaSession,
    N: Ids,
>(
    alloc: Global,
    rtc: &mut Rtc<I, D, S, M, N>,
    sdps: &mut Vec<Kept>,
    at: Side,
    token: u32,
    delivered: Sdp,
) -> Reply<M::E>
    ensures connection { rtc.new.transport ≡ rtc.old.transport }
    ensures accepts { StepAcceptsAnswer (meanings I.ice D.dtls S.association M.media N.ids)
        token (held_token sdps.old.items at token) (Readable delivered)
        rtc.old.core sdps.old.items result.outcome result.table rtc.new.core sdps.new.items }
{
    let Ok(room) = room_for(alloc, rtc, delivered.lines.len(), 0) else {
        return release(delivered, reply_no_memory());
    };
    let Some(pending) = take_token(sdps, at, token) else {
        return release(delivered, reply_with(Outcome::NoSuch, room, rtc));
    };
    match accept_answer(rtc, pending, SdpAnswer(delivered)) {
        Ok(()) => reply_with(Outcome::Finished, room, rtc),
        Err(error) => reply_with(Outcome::Refused(error), room, rtc),
    }
}

/// Delivers the answer of a number to a peer, which accepts or refuses it with the token of a number. What cannot be
/// read does not reach the peer, and the token is kept.
pub fn deliver_and_accept_answer<
    I: IceAgent,
    D: DtlsInstance,
    S: Association,
    M: MediaSession,
    N: Ids,
>(
    alloc: Global,
    rtc: &mut Rtc<I, D, S, M, N>,
    sdps: &mut Vec<Kept>,
    at: Side,
    token: u32,
    answer: u32,
) -> Reply<M::E>
    ensures connection { rtc.new.transport ≡ rtc.old.transport }
    ensures accepts { StepAcceptsAnswer (meanings I.ice D.dtls S.association M.media N.ids)
        token (held_token sdps.old.items at token) (kept_remote_sdp false sdps.old.items at answer)
        rtc.old.core sdps.old.items result.outcome result.table rtc.new.core sdps.new.items }
{
    if !has_token(sdps.as_slice(), at, token) {
        return reply_no_such(alloc, rtc);
    }
    match bring(alloc, sdps.as_slice(), false, at, answer) {
        Brought::NotMade => reply_no_such(alloc, rtc),
        Brought::Unreadable(line) => reply_unread(alloc, rtc, line),
        Brought::Readable(delivered) => {
            accept_delivered_answer(alloc, rtc, sdps, at, token, delivered)
        }
        Brought::Alloc => reply_no_memory(),
    }
}
