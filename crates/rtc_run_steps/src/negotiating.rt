//! Ops of a step at one peer.
ghost use Rattle.std.specs.Prelude.{◌≡◌, ◌+◌, ◌<◌, ◌≤◌, ◌^◌, ◌-◌, ◌++◌, [], ◌∷◌, length, slice_get, vec_capacity, vec_len};
ghost use Rattle.std.specs.Prelude.{Some, IfOk, not, ◌&&◌, true, false};
ghost use Rattle.rtc_peer_rows.specs.RowChanges.{media_mid};
ghost use Rattle.rtc_run_history.specs.Memory.{answers_lack};
ghost use Rattle.rtc_run_history.specs.declared.op.Op.TheVariants.{AddMedia, SetDirection, StopMedia, AddChannel, IceRestart};
ghost use Rattle.rtc_run_history.specs.Performs.{Negotiates, PerformsOps, kept_offer};
ghost use Rattle.rtc_run_steps.specs.Keeping.{KeepsMade};
ghost use Rattle.rtc_run_steps.specs.RefusedChannel.{refused_channel};
ghost use Rattle.rtc_run_steps.specs.Stages.{Stages};
ghost use Rattle.rtc_peer_core.specs.Meanings.{meanings};

use crate::applied::Applied;
use crate::{make_room, reply_no_memory, reply_with};
use rtc_change::SdpPendingOffer;
use rtc_lines::SdpOffer;
use rtc_peer::{Association, DtlsInstance, IceAgent, Ids, MediaSession, Rtc, RtcError, SdpApi};
use rtc_run_history::{Kept, Made, Op, OpAnswer, Outcome, Reply, Side, do_answers_lack};
use rtc_sdp_values::{Direction, LineRow, MediaKind, Mid};
use rtc_wire::{ChannelConfig, Seq, TryCopy};
use rtc_wire_drops::release;
use std::alloc::Global;

// Stages a media line whose stream and track names are drawn.
fn add_line<I: IceAgent, D: DtlsInstance, S: Association, M: MediaSession, N: Ids>(
    api: &mut SdpApi<'_, I, D, S, M, N>,
    kind: MediaKind,
    dir: Direction,
) -> OpAnswer
    ensures same_reference { api.new.rtc.ghost_name ≡ api.old.rtc.ghost_name }
    ensures connection { api.new.rtc.now.transport ≡ api.old.rtc.now.transport }
    ensures performs { PerformsOps (meanings I.ice D.dtls S.association M.media N.ids)
        api.old.rtc.now.core (AddMedia kind dir ∷ []) (result ∷ []) api.new.rtc.now.core }
{
    match api.add_media(kind, dir, None, None, None) {
        Ok(mid) => OpAnswer::Mid(mid),
        Err(_) => OpAnswer::Alloc,
    }
}

// The mid of the media line at a place, if there is one.
fn find_line(rows: &[LineRow], place: u32) -> Option<Mid>
    ensures { result ≡ media_mid (slice_get rows.now place) }
{
    let Some(row) = rows.get(place as usize) else {
        return None;
    };
    match row {
        LineRow::Media { mid, .. } => Some(*mid),
        LineRow::App { .. } => None,
    }
}

// Sets the direction of the line at a place.
fn set_line<I: IceAgent, D: DtlsInstance, S: Association, M: MediaSession, N: Ids>(
    api: &mut SdpApi<'_, I, D, S, M, N>,
    place: u32,
    dir: Direction,
) -> OpAnswer
    ensures same_reference { api.new.rtc.ghost_name ≡ api.old.rtc.ghost_name }
    ensures connection { api.new.rtc.now.transport ≡ api.old.rtc.now.transport }
    ensures performs { PerformsOps (meanings I.ice D.dtls S.association M.media N.ids)
        api.old.rtc.now.core (SetDirection place dir ∷ []) (result ∷ []) api.new.rtc.now.core }
{
    let Some(mid) = find_line(api.lines().rows(), place) else {
        return OpAnswer::NoLine;
    };
    match api.set_direction(mid, dir) {
        Ok(changed) => OpAnswer::Changed(changed),
        Err(_) => OpAnswer::Alloc,
    }
}

// Stops the line at a place.
fn stop_line<I: IceAgent, D: DtlsInstance, S: Association, M: MediaSession, N: Ids>(
    api: &mut SdpApi<'_, I, D, S, M, N>,
    place: u32,
) -> OpAnswer
    ensures same_reference { api.new.rtc.ghost_name ≡ api.old.rtc.ghost_name }
    ensures connection { api.new.rtc.now.transport ≡ api.old.rtc.now.transport }
    ensures performs { PerformsOps (meanings I.ice D.dtls S.association M.media N.ids)
        api.old.rtc.now.core (StopMedia place ∷ []) (result ∷ []) api.new.rtc.now.core }
{
    let Some(mid) = find_line(api.lines().rows(), place) else {
        return OpAnswer::NoLine;
    };
    match api.stop_media(mid) {
        Ok(changed) => OpAnswer::Changed(changed),
        Err(_) => OpAnswer::Alloc,
    }
}

// The result if no channel is staged.
fn answer_refusal(error: &RtcError) -> OpAnswer
    ensures { result ≡ refused_channel error.now }
{
    match error {
        RtcError::BadChannel => OpAnswer::BadChannel,
        _ => OpAnswer::Alloc,
    }
}

// Stages a channel that is opened with a copy of the config.
fn add_channel<I: IceAgent, D: DtlsInstance, S: Association, M: MediaSession, N: Ids>(
    api: &mut SdpApi<'_, I, D, S, M, N>,
    config: &ChannelConfig,
) -> OpAnswer
    ensures same_reference { api.new.rtc.ghost_name ≡ api.old.rtc.ghost_name }
    ensures connection { api.new.rtc.now.transport ≡ api.old.rtc.now.transport }
    ensures performs { PerformsOps (meanings I.ice D.dtls S.association M.media N.ids)
        api.old.rtc.now.core (AddChannel config.now ∷ []) (result ∷ []) api.new.rtc.now.core }
{
    let Ok(config) = config.copy() else {
        return OpAnswer::Alloc;
    };
    match api.add_channel_with_config(config) {
        Ok(id) => OpAnswer::Channel(id),
        Err(error) => {
            let answer = answer_refusal(&error);
            release(error, answer)
        }
    }
}

// Stages a restart of ICE.
fn stage_restart<I: IceAgent, D: DtlsInstance, S: Association, M: MediaSession, N: Ids>(
    api: &mut SdpApi<'_, I, D, S, M, N>,
    keep: bool,
) -> OpAnswer
    ensures same_reference { api.new.rtc.ghost_name ≡ api.old.rtc.ghost_name }
    ensures connection { api.new.rtc.now.transport ≡ api.old.rtc.now.transport }
    ensures performs { PerformsOps (meanings I.ice D.dtls S.association M.media N.ids)
        api.old.rtc.now.core (IceRestart keep ∷ []) (result ∷ []) api.new.rtc.now.core }
{
    match api.ice_restart(keep) {
        Ok(creds) => OpAnswer::Creds(creds),
        Err(_) => OpAnswer::Alloc,
    }
}

fn perform_op<I: IceAgent, D: DtlsInstance, S: Association, M: MediaSession, N: Ids>(
    api: &mut SdpApi<'_, I, D, S, M, N>,
    op: &Op,
) -> OpAnswer
    ensures same_reference { api.new.rtc.ghost_name ≡ api.old.rtc.ghost_name }
    ensures connection { api.new.rtc.now.transport ≡ api.old.rtc.now.transport }
    ensures performs { PerformsOps (meanings I.ice D.dtls S.association M.media N.ids)
        api.old.rtc.now.core (op.now ∷ []) (result ∷ []) api.new.rtc.now.core }
{
    match op {
        Op::AddMedia { kind, dir } => add_line(api, *kind, *dir),
        Op::SetDirection { place, dir } => set_line(api, *place, *dir),
        Op::StopMedia { place } => stop_line(api, *place),
        Op::AddChannel { config } => add_channel(api, config),
        Op::IceRestart { keep } => stage_restart(api, *keep),
    }
}

// Performs ops in order, up to the first that returns `Alloc`.
fn perform_ops<I: IceAgent, D: DtlsInstance, S: Association, M: MediaSession, N: Ids>(
    api: &mut SdpApi<'_, I, D, S, M, N>,
    ops: &[Op],
    room: Vec<OpAnswer>,
) -> Seq<OpAnswer>
    requires empty { room.items ≡ [] }
    requires room { length ops.now ≤ vec_capacity room }
    ensures same_reference { api.new.rtc.ghost_name ≡ api.old.rtc.ghost_name }
    ensures connection { api.new.rtc.now.transport ≡ api.old.rtc.now.transport }
    ensures performs { PerformsOps (meanings I.ice D.dtls S.association M.media N.ids)
        api.old.rtc.now.core ops.now result api.new.rtc.now.core }
{
    let mut room = room;
    for op in ops {
        let answer = perform_op(api, op);
        if answer.is_out_of_memory() {
            room.push_reserved(answer);
            return Seq::new(room);
        }
        room.push_reserved(answer);
    }
    Seq::new(room)
}

// Whether what the ops staged is applied: the step asks for it, and no op ran out of memory.
fn is_asked(apply: bool, answers: &[OpAnswer]) -> bool
    ensures { result ≡ (apply && not (answers_lack answers.now)) }
{
    apply && !do_answers_lack(answers)
}

// Performs ops at a peer, and applies what they staged if the step asks for it.
fn perform_and_apply<I: IceAgent, D: DtlsInstance, S: Association, M: MediaSession, N: Ids>(
    rtc: &mut Rtc<I, D, S, M, N>,
    ops: &[Op],
    apply: bool,
    room: Vec<OpAnswer>,
) -> (Seq<OpAnswer>, Applied)
    requires empty { room.items ≡ [] }
    requires room { length ops.now ≤ vec_capacity room }
    ensures stages { Stages (meanings I.ice D.dtls S.association M.media N.ids) rtc.old.core ops.now apply result.0 result.1 rtc.new.core }
    ensures connection { rtc.new.transport ≡ rtc.old.transport }
{
    let mut api = rtc.sdp_api();
    let answers = perform_ops(&mut api, ops, room);
    if !is_asked(apply, answers.as_slice()) {
        return (answers, Applied::NotAsked);
    }
    match api.apply() {
        Ok(Some((offer, token))) => (answers, Applied::Offer(offer, token)),
        Ok(None) => (answers, Applied::Nothing),
        Err(_) => (answers, Applied::Alloc),
    }
}

// The number of the next session description.
fn next_number(sdps: &Vec<Kept>) -> u32
    requires { length sdps.now.items < 2 ^ 32 }
    ensures { result ≡ length sdps.now.items }
{
    sdps.len() as u32
}

// The offer as the pair keeps it, with its token.
fn keep_offer(at: Side, offer: SdpOffer, token: SdpPendingOffer) -> Kept
    ensures { result ≡ kept_offer at (offer.0, token) }
{
    Kept {
        at,
        offer: true,
        sdp: offer.0,
        token: Some(token),
    }
}

// What was made of the changes. An offer is kept with its token, for which there is room.
fn keep_made(sdps: &mut Vec<Kept>, at: Side, applied: Applied) -> Made
    requires count { length sdps.old.items < 2 ^ 32 }
    requires room { vec_len sdps.old < vec_capacity sdps.old }
    ensures { KeepsMade at applied sdps.old.items result sdps.new.items }
{
    match applied {
        Applied::NotAsked => Made::NotAsked,
        Applied::Nothing => Made::Nothing,
        Applied::Alloc => Made::Alloc,
        Applied::Offer(offer, token) => {
            let number = next_number(sdps);
            sdps.push_reserved(keep_offer(at, offer, token));
            Made::Offer(number)
        }
    }
}

/// Performs ops at a peer, and applies what they staged if the step asks for it.
pub fn negotiate<I: IceAgent, D: DtlsInstance, S: Association, M: MediaSession, N: Ids>(
    alloc: Global,
    rtc: &mut Rtc<I, D, S, M, N>,
    sdps: &mut Vec<Kept>,
    at: Side,
    ops: &[Op],
    apply: bool,
) -> Reply<M::E>
    requires count { length sdps.old.items < 2 ^ 32 }
    ensures connection { rtc.new.transport ≡ rtc.old.transport }
    ensures negotiates { Negotiates (meanings I.ice D.dtls S.association M.media N.ids)
        at ops.now apply rtc.old.core sdps.old.items result.outcome result.table rtc.new.core sdps.new.items }
{
    let Ok(answers) = Vec::with_capacity(alloc, ops.len()) else {
        return reply_no_memory();
    };
    let Ok(room) = make_room(alloc, rtc, 0, ops.len(), sdps) else {
        return reply_no_memory();
    };
    let (answers, applied) = perform_and_apply(rtc, ops, apply, answers);
    let made = keep_made(sdps, at, applied);
    reply_with(Outcome::Negotiated { answers, made }, room, rtc)
}
