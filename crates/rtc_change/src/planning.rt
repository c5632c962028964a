//! Plans of offers and answers.
ghost use Rattle.std.specs.Prelude.{◌≡◌, ◌+◌, ◌<◌, ◌≤◌, ◌^◌, ◌-◌, Bool, true, false, length, List, [], ◌∷◌, IfOk, map};
ghost use Rattle.std.specs.Prelude.{Option, Some, None, IfNone};
ghost use Rattle.rtc_sdp_values.specs.declared.line_row.LineRow.{LineRow};
ghost use Rattle.rtc_change.specs.PendingOffer.{added_mids, added_rows};
ghost use Rattle.rtc_change.specs.WrongLines.{wrong_lines};
ghost use Rattle.rtc_change.specs.Plans.{PlansSdp, plan_of, side_verdict, init_refusal, inconsistent, head_verdict, asked_by};
ghost use Rattle.rtc_change.specs.Plans.{takes_init as TakesInit};
ghost use Rattle.rtc_peer_rows.specs.ParsedLines.{parsed_lines};
ghost use Rattle.rtc_sdp_values.specs.Mids.{AreDistinct};
ghost use Rattle.rtc_sdp_values.specs.Sdp.{sdp_sctp_init};
ghost use Rattle.rtc_peer_rows.specs.Verdict.{first_of, first_refusal};
ghost use Rattle.rtc_peer_rows.specs.Table.{IsTable, Distinct};

use crate::judging_sides::{is_restart, judge_init, judge_side};
use crate::table_after::{find_new_places, find_removed, list_rows_after};
use crate::wrong_lines::judge_new_lines;
use crate::{Refusal, SdpPendingOffer, View};
use rtc_peer_rows::{MidIndex, NewLine, ParsedLine, Plan, Why, judge_lines};
use rtc_sdp_values::{Sdp, SdpError};
use rtc_wire_drops::release;
use std::alloc::{AllocError, Global};

// Why a session description is inconsistent; a consistent one has distinct mids.
#[tactic(auto, using(crate::proofs::ConsistentMids::distinct_parsed))]
fn find_inconsistency(sdp: &Sdp) -> Option<Refusal>
    ensures cause { result ≡ inconsistent sdp.now }
    ensures distinct { IfNone result (AreDistinct (map (λ line. line.mid) (parsed_lines sdp.now))) }
{
    match sdp.find_inconsistency() {
        None => None,
        Some(why) => Some(Refusal::Sdp(SdpError::Inconsistent(why))),
    }
}

// Whether the SNAP INIT chunk of a session description may start the association.
fn takes_init(view: &View<'_>, may_take: bool, sdp: &Sdp) -> bool
    ensures { result ≡ TakesInit view.now.sctp_inited may_take (sdp_sctp_init sdp.now) }
{
    if view.sctp_inited || !may_take {
        return false;
    }
    sdp.sctp_init().is_some()
}

// Why the SNAP INIT chunk is refused, or the mids. What is not refused has distinct mids.
fn judge_session(alloc: Global, view: &View<'_>, sdp: &Sdp) -> Result<Option<Refusal>, AllocError>
    ensures cause { IfOk result (λ refusal. refusal ≡ first_of (init_refusal view.now.sctp_inited view.now.sctp_kept (sdp_sctp_init sdp.now)
        ∷ inconsistent sdp.now ∷ [])) }
    ensures distinct { IfOk result (λ refusal. IfNone refusal (AreDistinct (map (λ line. line.mid) (parsed_lines sdp.now)))) }
{
    let init = judge_init(alloc, view, sdp.sctp_init())?;
    if init.is_some() {
        return Ok(init);
    }
    Ok(release(init, find_inconsistency(sdp)))
}

// Why what a session description carries besides the lines is refused. What is not refused has distinct mids.
fn judge_head(
    alloc: Global,
    view: &View<'_>,
    may: bool,
    sdp: &Sdp,
) -> Result<Option<Refusal>, AllocError>
    ensures cause { IfOk result (λ refusal. refusal ≡ first_of (side_verdict view.now may sdp.now
        ∷ init_refusal view.now.sctp_inited view.now.sctp_kept (sdp_sctp_init sdp.now) ∷ inconsistent sdp.now ∷ [])) }
    ensures distinct { IfOk result (λ refusal. IfNone refusal (AreDistinct (map (λ line. line.mid) (parsed_lines sdp.now)))) }
{
    let side = judge_side(view, may, sdp)?;
    if side.is_some() {
        return Ok(side);
    }
    release(side, judge_session(alloc, view, sdp))
}

// Why what an offer carries besides the lines is refused, or that it has none.
#[tactic(auto, unfolding(crate::specs::Plans::head_verdict))]
fn judge_offer_head(
    alloc: Global,
    view: &View<'_>,
    offer: &Sdp,
) -> Result<Option<Refusal>, AllocError>
    ensures cause { IfOk result (λ refusal. refusal ≡ head_verdict view.now None offer.now) }
    ensures distinct { IfOk result (λ refusal. IfNone refusal (AreDistinct (map (λ line. line.mid) (parsed_lines offer.now)))) }
{
    match offer.lines.as_slice() {
        [] => Ok(Some(Refusal::RemoteSdp(Why::NoLines))),
        [_, ..] => judge_head(alloc, view, true, offer),
    }
}

fn make_plan(
    alloc: Global,
    view: &View<'_>,
    rows: &MidIndex<'_>,
    offer: bool,
    may_take: bool,
    sdp: &Sdp,
    lines: &[ParsedLine],
) -> Result<Plan, AllocError>
    requires few { length lines.now < 2 ^ 32 - 1 }
    requires rows { rows.now ≡ view.now.lines }
    requires lines { lines.now ≡ parsed_lines sdp.now }
    requires table { IsTable rows.now }
    requires allowed { first_refusal rows.now offer false 0 lines.now ≡ None }
    requires distinct { AreDistinct (map (λ line. line.mid) lines.now) }
    ensures plan { IfOk result (λ plan. plan ≡ plan_of view.now offer may_take sdp.now) }
    ensures table { IfOk result (λ plan. IsTable plan.rows) }
{
    let after = list_rows_after(alloc, rows, offer, lines)?;
    let removed = find_removed(alloc, rows, lines)?;
    let added = find_new_places(alloc, rows, lines)?;
    Ok(Plan {
        rows: after,
        removed,
        added,
        restart: is_restart(view.remote_creds, sdp.ice_creds()),
        snap: takes_init(view, may_take, sdp),
    })
}

// What an offer does at these rows, whose head is not refused.
#[tactic(auto, unfolding(crate::specs::Plans::verdict))]
fn plan_offer_at_rows(
    alloc: Global,
    view: &View<'_>,
    rows: &MidIndex<'_>,
    offer: &Sdp,
    lines: &[ParsedLine],
) -> Result<Plan, Refusal>
    requires few { length lines.now < 2 ^ 32 - 1 }
    requires rows { rows.now ≡ view.now.lines }
    requires lines { lines.now ≡ parsed_lines offer.now }
    requires table { IsTable rows.now }
    requires distinct { AreDistinct (map (λ line. line.mid) lines.now) }
    requires head { head_verdict view.now None offer.now ≡ None }
    ensures plans { PlansSdp view.now None offer.now result }
    ensures table { IfOk result (λ plan. IsTable plan.rows) }
{
    if let Some(why) = judge_lines(rows, true, lines) {
        return Err(Refusal::RemoteSdp(why));
    }
    let plan = make_plan(alloc, view, rows, true, true, offer, lines)?;
    Ok(plan)
}

// What an offer of these lines does, or why it is refused.
#[tactic(auto, unfolding(crate::specs::Plans::verdict))]
fn judge_offer_at_rows(
    alloc: Global,
    view: &View<'_>,
    offer: &Sdp,
    lines: &[ParsedLine],
) -> Result<Plan, Refusal>
    requires rows { length view.now.lines < 2 ^ 32 - 1 }
    requires few { length lines.now < 2 ^ 32 - 1 }
    requires lines { lines.now ≡ parsed_lines offer.now }
    ensures plans { PlansSdp view.now None offer.now result }
    ensures table { IfOk result (λ plan. IsTable plan.rows) }
{
    if let Some(refusal) = judge_offer_head(alloc, view, offer)? {
        return Err(refusal);
    }
    let rows = MidIndex::for_lines(alloc, view.lines.rows(), lines)?;
    let planned = plan_offer_at_rows(alloc, view, &rows, offer, lines);
    release(rows, planned)
}

/// What an offer does, or why it is refused (RFC 8829, section 5.10).
pub fn plan_offer(alloc: Global, view: &View<'_>, offer: &Sdp) -> Result<Plan, Refusal>
    requires rows { length view.now.lines < 2 ^ 32 - 1 }
    requires lines { length offer.now.lines < 2 ^ 32 - 1 }
    ensures plans { PlansSdp view.now None offer.now result }
    ensures table { IfOk result (λ plan. IsTable plan.rows) }
{
    let lines = ParsedLine::all_of(alloc, offer)?;
    let planned = judge_offer_at_rows(alloc, view, offer, lines.as_slice());
    release(lines, planned)
}

// What is wrong with the new lines of an answer to the offer of a token.
fn judge_added(
    alloc: Global,
    rows: &MidIndex<'_>,
    token: &SdpPendingOffer,
    lines: &[ParsedLine],
) -> Result<Option<NewLine>, AllocError>
    requires few { length lines.now < 2 ^ 32 - 1 }
    requires rows { length rows.now + length (added_mids token.now.changes) < 2 ^ 32 - 1 }
    requires distinct { Distinct rows.now }
    ensures { IfOk result (λ wrong. wrong ≡ wrong_lines rows.now (added_rows (length rows.now) token.now.changes) lines.now) }
{
    let added = token.changes().as_new_medias(rows.as_slice().len() as u32)?;
    let added = MidIndex::new(alloc, added.as_slice())?;
    let new = find_new_places(alloc, rows, lines)?;
    Ok(judge_new_lines(rows, &added, new.as_slice(), lines))
}

// What an answer does at these rows, whose head is not refused.
#[tactic(auto, unfolding(crate::specs::Plans::verdict))]
fn plan_answer_at_rows(
    alloc: Global,
    view: &View<'_>,
    rows: &MidIndex<'_>,
    token: &SdpPendingOffer,
    answer: &Sdp,
    lines: &[ParsedLine],
) -> Result<Plan, Refusal>
    requires few { length lines.now < 2 ^ 32 - 1 }
    requires rows { rows.now ≡ view.now.lines }
    requires added { length rows.now + length (added_mids token.now.changes) < 2 ^ 32 - 1 }
    requires lines { lines.now ≡ parsed_lines answer.now }
    requires table { IsTable rows.now }
    requires distinct { AreDistinct (map (λ line. line.mid) lines.now) }
    requires head { head_verdict view.now (Some (asked_by view.now.lines token.now)) answer.now ≡ None }
    ensures plans { PlansSdp view.now (Some (asked_by view.now.lines token.now)) answer.now result }
    ensures table { IfOk result (λ plan. IsTable plan.rows) }
{
    if let Some(why) = judge_lines(rows, false, lines) {
        return Err(Refusal::RemoteSdp(why));
    }
    if let Some(wrong) = judge_added(alloc, rows, token, lines)? {
        return Err(Refusal::RemoteSdp(Why::WrongNewLines(wrong)));
    }
    let may_take = token.has_sctp_init();
    let plan = make_plan(alloc, view, rows, false, may_take, answer, lines)?;
    Ok(plan)
}

// What an answer of these lines does, or why it is refused.
#[tactic(auto, unfolding(crate::specs::Plans::verdict, crate::specs::Plans::head_verdict))]
fn judge_answer_at_rows(
    alloc: Global,
    view: &View<'_>,
    token: &SdpPendingOffer,
    answer: &Sdp,
    lines: &[ParsedLine],
) -> Result<Plan, Refusal>
    requires rows { length view.now.lines + length (added_mids token.now.changes) < 2 ^ 32 - 1 }
    requires few { length lines.now < 2 ^ 32 - 1 }
    requires lines { lines.now ≡ parsed_lines answer.now }
    ensures plans { PlansSdp view.now (Some (asked_by view.now.lines token.now)) answer.now result }
    ensures table { IfOk result (λ plan. IsTable plan.rows) }
{
    if let Some(refusal) = judge_head(alloc, view, token.changes().restart().is_some(), answer)? {
        return Err(refusal);
    }
    let rows = MidIndex::for_lines(alloc, view.lines.rows(), lines)?;
    let planned = plan_answer_at_rows(alloc, view, &rows, token, answer, lines);
    release(rows, planned)
}

/// What an answer does, or why it is refused (RFC 8829, section 5.11).
pub fn plan_answer(
    alloc: Global,
    view: &View<'_>,
    token: &SdpPendingOffer,
    answer: &Sdp,
) -> Result<Plan, Refusal>
    requires rows { length view.now.lines + length (added_mids token.now.changes) < 2 ^ 32 - 1 }
    requires lines { length answer.now.lines < 2 ^ 32 - 1 }
    ensures plans { PlansSdp view.now (Some (asked_by view.now.lines token.now)) answer.now result }
    ensures table { IfOk result (λ plan. IsTable plan.rows) }
{
    let lines = ParsedLine::all_of(alloc, answer)?;
    let planned = judge_answer_at_rows(alloc, view, token, answer, lines.as_slice());
    release(lines, planned)
}
