//! Offers and answers of the other side.
ghost use Rattle.std.specs.Prelude.{◌≡◌, ◌==◌, ◌≤◌, false, length, is_some, IfOk, None, Some, option_map, string_bytes};
ghost use Rattle.std.specs.Option.{option_copied};
ghost use Rattle.rtc_change.specs.Plans.{PlansSdp, asked_by};
ghost use Rattle.rtc_peer_rows.specs.Table.{IsTable};
ghost use Rattle.rtc_peer_core.specs.Acceptances.{AcceptsOffer, AcceptsAnswer, phase_after, refused_phase};
ghost use Rattle.rtc_peer_core.specs.Calls.{raised};
ghost use Rattle.rtc_peer_core.specs.Glare.{meets_glare};
ghost use Rattle.rtc_peer_core.specs.Meanings.{meanings};
ghost use Rattle.rtc_peer_core.specs.RtcErrors.{error_of_refusal};
ghost use Rattle.rtc_peer_core.specs.Stance.{stance_of, held_by, kept_init as KeptInit};
ghost use Rattle.rtc_peer_negotiation.specs.FollowedAnswers.{FollowsLentAnswer};

use crate::confirming::confirm_channels;
use crate::growing::{grow_answer, grow_offer};
use crate::growth::Growth;
use crate::moving::move_peer;
use rtc_change::{Plan, Refusal, SdpPendingOffer, View, Why, count_added, plan_answer, plan_offer};
use rtc_parts::{Association, DtlsInstance, IceAgent, Ids, MediaSession};
use rtc_peer_core::{Peer, Phase, RtcError, count_lines};
use rtc_sctp::RtcSctp;
use rtc_sdp_values::{IceCreds, Sdp};
use rtc_wire_drops::release;
use std::alloc::AllocError;

// A table has fewer rows than this.
const MOST_LINES: usize = 4_294_967_295;

// The credentials of the other side, once known.
fn known_creds<I: IceAgent>(ice: &I) -> Option<&IceCreds>
    ensures { option_copied result ≡ (I.ice.settings ice.now).remote }
{
    match ice.remote_credentials() {
        Some(creds) => Some(creds),
        None => None,
    }
}

// The other side's SNAP INIT chunk as text, if the association was started by both chunks.
fn kept_init<S: Association>(sctp: &RtcSctp<S>) -> Result<Option<String>, AllocError>
    ensures { IfOk result (λ kept. option_map (λ text. string_bytes text) kept ≡ KeptInit sctp.now.snap) }
{
    match sctp.begun_snap_init_data() {
        Some(halves) => halves.remote_init_string(),
        None => Ok(None),
    }
}

// A text, lent.
fn lend_text(text: &Option<String>) -> Option<&str>
    ensures { option_map (λ lent. lent.now) result ≡ option_map (λ owned. string_bytes owned) text.now }
{
    match text {
        Some(text) => Some(text.as_str()),
        None => None,
    }
}

fn judge_offer<I: IceAgent, D: DtlsInstance, S: Association, M: MediaSession, N: Ids>(
    peer: &Peer<I, D, S, M, N>,
    offer: &Sdp,
) -> Result<Plan, Refusal>
    ensures plans { PlansSdp (held_by (stance_of (meanings I.ice D.dtls S.association M.media N.ids) peer.now)) None offer.now result }
    ensures table { IfOk result (λ plan. IsTable plan.rows) }
    ensures count { IfOk result (λ plan. length offer.now.lines ≤ length plan.rows) }
{
    if peer.lines.rows().len() >= MOST_LINES || offer.lines.len() >= MOST_LINES {
        return Err(Refusal::Alloc);
    }
    let kept = kept_init(&peer.sctp)?;
    let view = View {
        lines: &peer.lines,
        lite: peer.ice.ice_lite(),
        remote_creds: known_creds(&peer.ice),
        has_fingerprint: peer.fingerprint.is_some(),
        sctp_inited: peer.sctp.is_inited(),
        sctp_kept: lend_text(&kept),
    };
    plan_offer(peer.alloc, &view, offer)
}

fn judge_answer<I: IceAgent, D: DtlsInstance, S: Association, M: MediaSession, N: Ids>(
    peer: &Peer<I, D, S, M, N>,
    token: &SdpPendingOffer,
    answer: &Sdp,
) -> Result<Plan, Refusal>
    ensures plans { PlansSdp (held_by (stance_of (meanings I.ice D.dtls S.association M.media N.ids) peer.now))
        (Some (asked_by peer.now.lines token.now)) answer.now result }
    ensures table { IfOk result (λ plan. IsTable plan.rows) }
    ensures count { IfOk result (λ plan. length answer.now.lines ≤ length plan.rows) }
{
    count_lines(&peer.lines, count_added(token.changes().0.as_slice()))?;
    if answer.lines.len() >= MOST_LINES {
        return Err(Refusal::Alloc);
    }
    let kept = kept_init(&peer.sctp)?;
    let view = View {
        lines: &peer.lines,
        lite: peer.ice.ice_lite(),
        remote_creds: known_creds(&peer.ice),
        has_fingerprint: peer.fingerprint.is_some(),
        sctp_inited: peer.sctp.is_inited(),
        sctp_kept: lend_text(&kept),
    };
    plan_answer(peer.alloc, &view, token, answer)
}

// A side whose certificate could not be checked is closed.
fn close_unknown(phase: Phase, why: &Why) -> Phase
    ensures { result ≡ phase_after why.now phase }
{
    match why {
        Why::NoFingerprint | Why::NoMatch { .. } | Why::UnknownHash(_) | Why::NoneAnnounced =>
            Phase::Closed,
        Why::NoLines
        | Why::BothLite
        | Why::NoCredentials
        | Why::UnaskedRestart { .. }
        | Why::SctpInitChanged { .. }
        | Why::SctpInitMissing { .. }
        | Why::MovedLine(_)
        | Why::PlaceTaken(_)
        | Why::AnswerRecycles(_)
        | Why::WrongNewLines(_) => phase,
    }
}

// Why an offer or an answer is refused, as a peer reports it.
fn refusal_error(phase: &mut Phase, refusal: Refusal) -> RtcError
    ensures error { result ≡ error_of_refusal refusal }
    ensures phase { phase.new ≡ refused_phase refusal phase.old }
{
    match refusal {
        Refusal::RemoteSdp(why) => {
            *phase = close_unknown(*phase, &why);
            RtcError::RemoteSdp(why)
        }
        Refusal::Sdp(error) => RtcError::from(error),
        Refusal::Alloc => RtcError::Alloc,
    }
}

// Refuses an offer or an answer; all of the peer but its phase is unchanged.
fn refuse<I: IceAgent, D: DtlsInstance, S: Association, M: MediaSession, N: Ids>(
    peer: &mut Peer<I, D, S, M, N>,
    refusal: Refusal,
) -> RtcError
    ensures error { result ≡ error_of_refusal refusal }
    ensures rest { peer.new ≡ record peer.old { phase = refused_phase refusal peer.old.phase } }
{
    refusal_error(&mut peer.phase, refusal)
}

// Whether a peer of this role refuses any offer, given whether an own offer is pending.
fn is_in_glare(polite: Option<bool>, outstanding: bool) -> bool
    ensures { result ≡ meets_glare polite outstanding }
{
    match polite {
        Some(polite) => !polite && outstanding,
        None => false,
    }
}

// Accepts an offer that the caller keeps, so that no way out drops it.
fn accept_lent_offer<I: IceAgent, D: DtlsInstance, S: Association, M: MediaSession, N: Ids>(
    peer: &mut Peer<I, D, S, M, N>,
    offer: &Sdp,
) -> Result<Sdp, RtcError>
    requires { meets_glare peer.old.polite peer.old.outstanding ≡ false }
    ensures { AcceptsOffer (meanings I.ice D.dtls S.association M.media N.ids) peer.old offer.now result peer.new }
{
    peer.counter = peer.counter.wrapping_add(1);
    peer.outstanding = false;
    let plan = match judge_offer(peer, offer) {
        Ok(plan) => plan,
        Err(refusal) => return Err(refuse(peer, refusal)),
    };
    let growth = match grow_offer(peer, offer, &plan) {
        Ok(growth) => growth,
        Err(_) => {
            drop(plan);
            return Err(RtcError::Alloc);
        }
    };
    let Growth {
        answer,
        following,
        starting,
        fingerprint,
    } = growth;
    let Some(answer) = answer else { unreachable!() };
    match move_peer(peer, following, starting, offer, plan.rows.as_slice()) {
        Ok(()) => {}
        Err(error) => {
            drop((plan, answer, fingerprint));
            return Err(error);
        }
    }
    peer.fingerprint = fingerprint;
    peer.media.commit();
    peer.lines.commit(plan);
    Ok(answer)
}

/// Whether a token is that of the latest offer, made or given.
pub fn is_latest(counter: u64, token: &SdpPendingOffer) -> bool
    ensures { result ≡ (counter == raised token.now.id) }
{
    counter == token.change_id().wrapping_add(1)
}

// Accepts an answer to the offer of a token, which the caller consumes: the channels that it adds are still to be confirmed.
fn follow_answer<I: IceAgent, D: DtlsInstance, S: Association, M: MediaSession, N: Ids>(
    peer: &mut Peer<I, D, S, M, N>,
    token: &SdpPendingOffer,
    answer: &Sdp,
) -> Result<(), RtcError>
    ensures { FollowsLentAnswer (meanings I.ice D.dtls S.association M.media N.ids) peer.old token.now answer.now result peer.new }
{
    if !is_latest(peer.counter, token) {
        return Err(RtcError::ChangesOutOfOrder);
    }
    peer.outstanding = false;
    let plan = match judge_answer(peer, token, answer) {
        Ok(plan) => plan,
        Err(refusal) => return Err(refuse(peer, refusal)),
    };
    let may = token.has_sctp_init();
    let staged = token.changes();
    let growth = match grow_answer(peer, may, staged, answer, &plan) {
        Ok(growth) => growth,
        Err(_) => return release(plan, Err(RtcError::Alloc)),
    };
    let Growth {
        answer: own,
        following,
        starting,
        fingerprint,
    } = growth;
    drop(own);
    match move_peer(peer, following, starting, answer, plan.rows.as_slice()) {
        Ok(()) => {}
        Err(error) => {
            drop((plan, fingerprint));
            return Err(error);
        }
    }
    peer.fingerprint = fingerprint;
    peer.media.commit();
    peer.lines.commit(plan);
    Ok(())
}

/// Accepts an offer, and returns the answer. The token of an own offer is invalidated, also if the other offer is refused, but on glare.
pub fn accept_offer<I: IceAgent, D: DtlsInstance, S: Association, M: MediaSession, N: Ids>(
    peer: &mut Peer<I, D, S, M, N>,
    offer: Sdp,
) -> Result<Sdp, RtcError>
    ensures { AcceptsOffer (meanings I.ice D.dtls S.association M.media N.ids) peer.old offer result peer.new }
{
    if is_in_glare(peer.polite, peer.outstanding) {
        drop(offer);
        return Err(RtcError::Glare);
    }
    let answer = accept_lent_offer(peer, &offer);
    drop(offer);
    answer
}

/// Accepts the answer to the offer of a token, which is consumed. The channels that it adds are confirmed.
pub fn accept_answer<I: IceAgent, D: DtlsInstance, S: Association, M: MediaSession, N: Ids>(
    peer: &mut Peer<I, D, S, M, N>,
    token: SdpPendingOffer,
    answer: Sdp,
) -> Result<(), RtcError>
    ensures { AcceptsAnswer (meanings I.ice D.dtls S.association M.media N.ids) peer.old token answer result peer.new }
{
    match follow_answer(peer, &token, &answer) {
        Ok(()) => {
            drop(answer);
            confirm_channels(&mut peer.channels, token.into_changes());
            Ok(())
        }
        Err(error) => {
            drop((token, answer));
            Err(error)
        }
    }
}
