//! What takes memory in an acceptance, before parts are touched.
ghost use Rattle.std.specs.Prelude.{◌≡◌, ◌≤◌, length, take, IfOk, OnOk, Some, None, true, false, []};
ghost use Rattle.std.specs.Option.{option_or};
ghost use Rattle.rtc_sdp_values.specs.Sdp.{creds_of, sdp_fingerprint};
ghost use Rattle.rtc_change.specs.PendingOffer.{staged_restart};
ghost use Rattle.rtc_change.specs.Plans.{is_restart};
ghost use Rattle.rtc_change.specs.TableAfter.{table_after};
ghost use Rattle.rtc_peer_rows.specs.ParsedLines.{parsed_lines};
ghost use Rattle.rtc_peer_core.specs.Calls.{control_for as ControlFor};
ghost use Rattle.rtc_peer_core.specs.Creds.{new_creds, after_new_creds};
ghost use Rattle.rtc_peer_core.specs.MadeSdp.{answer_sdp};
ghost use Rattle.rtc_peer_core.specs.Meanings.{meanings};
ghost use Rattle.rtc_peer_core.specs.SdpHalves.{answer_init};
ghost use Rattle.rtc_peer_core.specs.Stance.{stance_of};
ghost use Rattle.rtc_sctp.specs.Calls.{are_whole};
ghost use Rattle.rtc_peer_negotiation.specs.Growths.{following_of, GrowsOffer, GrowsAnswer};

use crate::answering::make_answer;
use crate::copying::{begin_growth, copy_restart, put_told};
use crate::draws::{Drawn, draw_along};
use crate::growth::Growth;
use crate::starting::Starting;
use crate::telling_init::tell_init;
use rtc_change::{Changes, Plan};
use rtc_parts::{Association, Dtls, DtlsInstance, IceAgent, Ids, MediaSession, MediaUpdate};
use rtc_peer_core::Peer;
use rtc_peer_sdp::make_creds;
use rtc_sctp_values::SctpInitData;
use rtc_sdp_values::{Fingerprint, IceCreds, LineRow, Sdp};
use rtc_wire_drops::{set, whole};
use std::alloc::{AllocError, Global};

// A restart with these credentials, which keeps the candidates.
fn keep_candidates(creds: IceCreds) -> (IceCreds, bool)
    ensures { result ≡ (creds, true) }
{
    (creds, true)
}

// The restart by which a restart of the other side is followed: with drawn credentials, and the candidates kept.
fn draw_restart<N: Ids>(
    alloc: Global,
    ids: &mut N,
    restarts: bool,
) -> Result<Option<(IceCreds, bool)>, AllocError>
    ensures restart { IfOk result (λ restart. restart ≡ new_creds N.ids ids.old restarts) }
    ensures after { ids.new ≡ after_new_creds N.ids ids.old restarts }
{
    if !restarts {
        return Ok(None);
    }
    let n = ids.draw();
    let creds = make_creds(alloc, n)?;
    Ok(Some(keep_candidates(creds)))
}

// Which side is controlling, if that is still open.
fn control_for<D: DtlsInstance>(dtls: &Dtls<D>, on: bool) -> Option<bool>
    ensures { result ≡ ControlFor dtls.now.active on }
{
    match dtls.is_active() {
        None => Some(on),
        Some(_) => None,
    }
}

// Makes the updates ready.
fn prepare_media<M: MediaSession>(
    media: &mut M,
    updates: Vec<MediaUpdate>,
) -> Result<(), AllocError>
    ensures { M.media.prepared media.old updates.items result media.new }
{
    media.prepare(updates.as_slice())
}

// Puts the answer to an offer, and what the offer carries of its side.
fn put_followed<I: IceAgent, D: DtlsInstance, S: Association, M: MediaSession, N: Ids>(
    peer: &Peer<I, D, S, M, N>,
    offer: &Sdp,
    rows: &[LineRow],
    updates: &[MediaUpdate],
    growth: &mut Growth,
) -> Result<(), AllocError>
    requires rows { rows.now ≡ table_after peer.now.lines (parsed_lines offer.now) true }
    requires creds { growth.old.following.creds ≡ None }
    requires fingerprint { growth.old.fingerprint ≡ None }
    ensures { OnOk result (growth.new ≡ record growth.old {
      answer = Some (answer_sdp (stance_of (meanings I.ice D.dtls S.association M.media N.ids) peer.now)
          growth.old.following.restart updates.now
          (answer_init (S.association.started peer.now.sctp.association) peer.now.sctp.snap growth.old.starting.halves) offer.now);
      following = following_of growth.old.following.restart offer.now growth.old.following.control;
      fingerprint = option_or peer.now.fingerprint (sdp_fingerprint offer.now);
    }) }
{
    let init = tell_init(&peer.sctp, &growth.starting.halves)?;
    let answer = make_answer(peer, &growth.following.restart, offer, rows, updates, init)?;
    set(&mut growth.answer, Some(answer));
    put_told(&peer.fingerprint, offer, growth)
}

// What the acceptance of an offer needs besides the updates, once a restart was drawn and they were made.
fn grow_followed<I: IceAgent, D: DtlsInstance, S: Association, M: MediaSession, N: Ids>(
    peer: &Peer<I, D, S, M, N>,
    offer: &Sdp,
    rows: &[LineRow],
    restart: Option<(IceCreds, bool)>,
    updates: &[MediaUpdate],
    halves: Option<SctpInitData>,
) -> Result<Growth, AllocError>
    requires { rows.now ≡ table_after peer.now.lines (parsed_lines offer.now) true }
    ensures { IfOk result (λ growth. growth ≡ record {
      answer = Some (answer_sdp (stance_of (meanings I.ice D.dtls S.association M.media N.ids) peer.now) restart updates.now
          (answer_init (S.association.started peer.now.sctp.association) peer.now.sctp.snap halves) offer.now);
      following = following_of restart offer.now (ControlFor peer.now.dtls.active offer.now.ice_lite);
      starting = record { halves = halves; drops = false };
      fingerprint = option_or peer.now.fingerprint (sdp_fingerprint offer.now);
    }) }
{
    let control = control_for(&peer.dtls, offer.ice_lite);
    let starting = Starting {
        halves,
        drops: false,
    };
    let mut growth = begin_growth(peer.alloc, restart, control, starting);
    let put = put_followed(peer, offer, rows, updates, &mut growth);
    whole(growth, put)
}

/// Prepares what the acceptance of an offer needs: credentials, then SSRCs, then this side's SNAP INIT chunk; the answer carries all.
pub fn grow_offer<I: IceAgent, D: DtlsInstance, S: Association, M: MediaSession, N: Ids>(
    peer: &mut Peer<I, D, S, M, N>,
    offer: &Sdp,
    plan: &Plan,
) -> Result<Growth, AllocError>
    requires rows { plan.now.rows ≡ table_after peer.old.lines (parsed_lines offer.now) true }
    requires restart { plan.now.restart ≡ is_restart (I.ice.settings peer.old.ice).remote (creds_of offer.now) }
    requires count { length offer.now.lines ≤ length plan.now.rows }
    ensures grows { GrowsOffer (meanings I.ice D.dtls S.association M.media N.ids) peer.old offer.now result peer.new }
    ensures whole { IfOk result (λ growth. are_whole growth.starting.halves ≡ true) }
{
    let restart = match draw_restart(peer.alloc, &mut peer.ids, plan.restart) {
        Ok(restart) => restart,
        Err(error) => return Err(error),
    };
    let rows = plan.rows.as_slice();
    let drawn = match draw_along(peer, true, true, &[], offer, rows) {
        Ok(drawn) => drawn,
        Err(error) => {
            drop(restart);
            return Err(error);
        }
    };
    let Drawn { updates, halves } = drawn;
    let growth = match grow_followed(peer, offer, rows, restart, updates.as_slice(), halves) {
        Ok(growth) => growth,
        Err(error) => {
            drop(updates);
            return Err(error);
        }
    };
    match prepare_media(&mut peer.media, updates) {
        Ok(()) => Ok(growth),
        Err(error) => {
            drop(growth);
            Err(error)
        }
    }
}

// Puts the restart that follows an answer, and what the answer carries of its side.
fn put_answered(
    changes: &Changes,
    answer: &Sdp,
    known: &Option<Fingerprint>,
    growth: &mut Growth,
) -> Result<(), AllocError>
    requires creds { growth.old.following.creds ≡ None }
    requires fingerprint { growth.old.fingerprint ≡ None }
    ensures { OnOk result (growth.new ≡ record growth.old {
      following = following_of (staged_restart changes.now.0) answer.now growth.old.following.control;
      fingerprint = option_or known.now (sdp_fingerprint answer.now);
    }) }
{
    let restart = copy_restart(changes)?;
    set(&mut growth.following.restart, restart);
    put_told(known, answer, growth)
}

// What the acceptance of an answer needs besides the updates.
fn grow_answered(
    alloc: Global,
    changes: &Changes,
    answer: &Sdp,
    known: &Option<Fingerprint>,
    halves: Option<SctpInitData>,
) -> Result<Growth, AllocError>
    ensures { IfOk result (λ growth. growth ≡ record {
      answer = None;
      following = following_of (staged_restart changes.now.0) answer.now None;
      starting = record { halves = halves; drops = true };
      fingerprint = option_or known.now (sdp_fingerprint answer.now);
    }) }
{
    let starting = Starting {
        halves,
        drops: true,
    };
    let mut growth = begin_growth(alloc, None, None, starting);
    let put = put_answered(changes, answer, known, &mut growth);
    whole(growth, put)
}

/// Prepares what the acceptance of an answer needs.
pub fn grow_answer<I: IceAgent, D: DtlsInstance, S: Association, M: MediaSession, N: Ids>(
    peer: &mut Peer<I, D, S, M, N>,
    may: bool,
    changes: &Changes,
    answer: &Sdp,
    plan: &Plan,
) -> Result<Growth, AllocError>
    requires rows { plan.now.rows ≡ table_after peer.old.lines (parsed_lines answer.now) false }
    requires count { length answer.now.lines ≤ length plan.now.rows }
    ensures grows { GrowsAnswer (meanings I.ice D.dtls S.association M.media N.ids) peer.old may changes.now.0 answer.now result peer.new }
    ensures whole { IfOk result (λ growth. are_whole growth.starting.halves ≡ true) }
{
    let drawn = match draw_along(
        peer,
        false,
        may,
        changes.0.as_slice(),
        answer,
        plan.rows.as_slice(),
    ) {
        Ok(drawn) => drawn,
        Err(error) => return Err(error),
    };
    let Drawn { updates, halves } = drawn;
    let growth = match grow_answered(peer.alloc, changes, answer, &peer.fingerprint, halves) {
        Ok(growth) => growth,
        Err(error) => {
            drop(updates);
            return Err(error);
        }
    };
    match prepare_media(&mut peer.media, updates) {
        Ok(()) => Ok(growth),
        Err(error) => {
            drop(growth);
            Err(error)
        }
    }
}
