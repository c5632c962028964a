//! Steps of a member's pair.
ghost use Rattle.std.specs.Prelude.{◌≡◌, ◌<◌, ◌≤◌, List, length, IfOk, OnOk, slice_get, slice_set, Some};
ghost use Rattle.rtc_plain_media.specs.declared.plain_media_event.PlainMediaEvent.{PlainMediaEvent};
ghost use Rattle.rtc_run_history.specs.PairState.{rtc_at};
ghost use Rattle.rtc_run_history.specs.Past.{Entry};
ghost use Rattle.rtc_run_history.specs.Sizes.{step_size};
ghost use Rattle.rtc_run.specs.ProgramPair.{PlainPairState};
ghost use Rattle.rtc_peer.specs.CachedPeer.{polled_of};
ghost use Rattle.rtc_room_laws.specs.Hearing.{members_after, members_behind, members_told};
ghost use Rattle.rtc_room_laws.specs.Members.{MemberState, hearing_members};
ghost use Rattle.rtc_room_laws.specs.RoomSizes.{HaveRoom};
ghost use Rattle.rtc_room_laws.specs.RoomSteps.{PerformsAt, PerformsHere, is_allowed};

use crate::hearing::hear_outputs;
use crate::member::Member;
use rtc_plain::PlainMediaEvent;
use rtc_room_laws::Item;
use rtc_run::{PlainPair, PlainPeer};
use rtc_run_history::{Outcome, Reply, Shown, Side, Step};
use rtc_wire::ChannelId;
use std::alloc::{AllocError, Global};

/// Whether the pair of a member may perform a step: it takes nothing of anybody, and at the side of the hub no message and no datagram.
pub fn is_allowed(step: &Step) -> bool
    ensures { result ≡ is_allowed step.now }
{
    match step {
        Step::Negotiate { .. } => true,
        Step::AcceptOffer { .. } => true,
        Step::AcceptAnswer { .. } => true,
        Step::Time { .. } => true,
        Step::Datagram { at, .. } => *at == Side::Right,
        Step::Poll { .. } => true,
        Step::Drain { .. } => true,
        Step::Write { at, .. } => *at == Side::Right,
        Step::CloseChannel { .. } => true,
        Step::Close { .. } => true,
        Step::Rollback { .. } => true,
        Step::ForeignOffer { .. } => false,
        Step::ForeignAnswer { .. } => false,
        Step::Raw { .. } => false,
    }
}

// Performs a step of the pair at a place.
fn perform_at(
    pairs: &mut [PlainPair],
    k: usize,
    step: &Step,
) -> Result<Reply<PlainMediaEvent>, AllocError>
    requires place { k < length pairs.old }
    requires size { HaveRoom (step_size step.now) pairs.old }
    ensures { IfOk result (λ reply. (performed : List (Entry PlainMediaEvent))
        × PerformsAt k step.now reply pairs.old performed pairs.new) }
{
    let pair = &mut pairs[k];
    let reply = pair.perform(step);
    if reply.is_out_of_memory() {
        return Err(AllocError);
    }
    Ok(reply)
}

// What was heard of a sender waits for the others of its room.
fn queue_items(
    members: &mut [Member],
    sender: u32,
    room: u32,
    items: &[Item],
) -> Result<(), AllocError>
    ensures { OnOk result (members.new ≡ hearing_members sender room items.now members.old) }
{
    if items.is_empty() {
        return Ok(());
    }
    for member in members.iter_mut() {
        member.hear(sender, room, items)?;
    }
    Ok(())
}

fn set_line(members: &mut [Member], k: usize, line: Option<ChannelId>)
    requires { k < length members.old }
    ensures { (member : MemberState) → slice_get members.old k ≡ Some member
        → members.new ≡ slice_set members.old k (record member { line = line }) }
{
    let member = &mut members[k];
    member.set_line(line);
}

// The hub hears what the left peer of a member hands out in a step.
fn hear_step(
    alloc: Global,
    members: &mut [Member],
    k: usize,
    peer: &PlainPeer,
    outputs: &[Shown<PlainMediaEvent>],
) -> Result<(), AllocError>
    requires place { k < length members.old }
    requires few { length members.old ≤ 256 }
    ensures { OnOk result ((member : MemberState) → slice_get members.old k ≡ Some member
        → members.new ≡ members_told k member (polled_of peer.now) outputs.now members.old) }
{
    let line = members[k].line();
    let room = members[k].room();
    let sender = k as u32;
    let told = hear_outputs(alloc, peer, line, sender, outputs)?;
    set_line(members, k, told.line);
    queue_items(members, sender, room, told.heard.as_slice())
}

// The hub hears what a step of the left peer of a member shows.
fn hear_outcome(
    alloc: Global,
    members: &mut [Member],
    k: usize,
    peer: &PlainPeer,
    outcome: &Outcome<PlainMediaEvent>,
) -> Result<(), AllocError>
    requires place { k < length members.old }
    requires few { length members.old ≤ 256 }
    ensures { OnOk result ((member : MemberState) → slice_get members.old k ≡ Some member
        → members.new ≡ members_after outcome.now k member (polled_of peer.now) members.old) }
{
    match outcome {
        Outcome::Polled { outputs, .. } => {
            hear_step(alloc, members, k, peer, outputs.as_slice())
        }
        _ => Ok(()),
    }
}

// The hub hears what a step of the left peer of a member shows, and nothing of the right one.
fn hear_reply(
    alloc: Global,
    members: &mut [Member],
    k: usize,
    pair: &PlainPair,
    side: Side,
    outcome: &Outcome<PlainMediaEvent>,
) -> Result<(), AllocError>
    requires place { k < length members.old }
    requires few { length members.old ≤ 256 }
    ensures { OnOk result ((member : MemberState) → slice_get members.old k ≡ Some member
        → members.new ≡ members_behind side outcome.now k member (rtc_at side pair.now) members.old) }
{
    match side {
        Side::Left => hear_outcome(alloc, members, k, pair.left(), outcome),
        Side::Right => Ok(()),
    }
}

/// Performs a step of the pair of a member. The hub hears what its left peer hands out.
pub fn perform(
    alloc: Global,
    members: &mut [Member],
    pairs: &mut [PlainPair],
    k: usize,
    step: &Step,
) -> Result<Reply<PlainMediaEvent>, AllocError>
    requires place { k < length members.old }
    requires same { length members.old ≡ length pairs.old }
    requires few { length members.old ≤ 256 }
    requires size { HaveRoom (step_size step.now) pairs.old }
    ensures { IfOk result (λ reply. (performed : List (Entry PlainMediaEvent))
        × PerformsHere k step.now reply (record { members = members.old; pairs = pairs.old }) performed
        (record { members = members.new; pairs = pairs.new })) }
{
    let reply = perform_at(pairs, k, step)?;
    let side = step.side();
    hear_reply(alloc, members, k, &pairs[k], side, &reply.outcome)?;
    Ok(reply)
}
