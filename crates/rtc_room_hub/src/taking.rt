//! One step of a room.
ghost use Rattle.std.specs.Prelude.{◌≡◌, ◌↔◌, ◌≤◌, ◌<◌, IsTrue, true, List, length, IfOk, if◌then◌else◌, Some, None, slice_get, slice_set};
ghost use Rattle.rtc_plain_media.specs.declared.plain_media_event.PlainMediaEvent.{PlainMediaEvent};
ghost use Rattle.rtc_run_history.specs.Past.{Entry};
ghost use Rattle.rtc_run_history.specs.Sizes.{step_size};
ghost use Rattle.rtc_room_laws.specs.Members.{MemberState, gone_member, is_here};
ghost use Rattle.rtc_room_laws.specs.RoomSizes.{HaveRoom, room_step_size};
ghost use Rattle.rtc_room_laws.specs.RoomSteps.{IsFor, JoinsRoom, TakesRoomStep, TakesStep};
ghost use Rattle.rtc_room_laws.specs.declared.room_step.RoomStep.TheVariants.{
  Leave as LeaveOf,
  Perform as PerformOf,
  Arrive as ArriveOf,
  Forward as ForwardOf,
};

use crate::accepting::addressee;
use crate::forwarding::forward;
use crate::member::Member;
use crate::performing::{is_allowed, perform};
use rtc_room_laws::{RoomReply, RoomStep};
use rtc_run::{PlainPair, make_numbered_pair};
use rtc_run_history::{Side, Step};
use rtc_wire::Moment;
use std::alloc::{AllocError, Global};

// As many members join at most.
const MEMBER_LIMIT: usize = 256;

// A new member joins a room.
fn join(
    alloc: Global,
    members: &mut Vec<Member>,
    pairs: &mut Vec<PlainPair>,
    room: u32,
) -> Result<RoomReply, AllocError>
    ensures { IfOk result (λ reply. JoinsRoom alloc room (record { members = members.old.items; pairs = pairs.old.items }) reply
        (record { members = members.new.items; pairs = pairs.new.items })) }
{
    let number = members.len();
    if number >= MEMBER_LIMIT {
        return Ok(RoomReply::Full);
    }
    let pair = make_numbered_pair(alloc, number as u8)?;
    members.push(Member::new(alloc, number as u32, room))?;
    pairs.push(pair)?;
    Ok(RoomReply::Joined {
        member: number as u32,
    })
}

// The place of a member that is here.
fn place_of(members: &[Member], number: u32) -> Option<usize>
    ensures { result ≡ (if is_here number members.now then Some number else None) }
{
    match members.get(number as usize) {
        None => None,
        Some(member) => {
            if member.is_here() {
                Some(number as usize)
            } else {
                None
            }
        }
    }
}

// The member at a place leaves.
fn leave_at(members: &mut [Member], k: usize)
    requires { k < length members.old }
    ensures { (member : MemberState) → slice_get members.old k ≡ Some member
        → members.new ≡ slice_set members.old k (gone_member member) }
{
    let member = &mut members[k];
    member.leave();
}

// A member leaves.
fn leave(members: &mut [Member], pairs: &[PlainPair], number: u32) -> RoomReply
    ensures { TakesRoomStep (is_here number members.old) (LeaveOf number) result members.old pairs.now members.new pairs.now }
{
    match place_of(members, number) {
        None => RoomReply::NoMember,
        Some(k) => {
            leave_at(members, k);
            RoomReply::Left
        }
    }
}

// The member at a place performs a step of its pair.
fn take_step_at(
    alloc: Global,
    members: &mut [Member],
    pairs: &mut [PlainPair],
    k: usize,
    step: &Step,
) -> Result<RoomReply, AllocError>
    requires place { k < length members.old }
    requires same { length members.old ≡ length pairs.old }
    requires few { length members.old ≤ 256 }
    requires size { HaveRoom (step_size step.now) pairs.old }
    ensures { IfOk result (λ reply. TakesRoomStep true (PerformOf k step.now) reply members.old pairs.old members.new pairs.new) }
{
    if !is_allowed(step) {
        return Ok(RoomReply::NotAllowed);
    }
    let reply = perform(alloc, members, pairs, k, step)?;
    Ok(RoomReply::Performed(reply))
}

// A member performs a step of its pair.
fn take_step_of_pair(
    alloc: Global,
    members: &mut [Member],
    pairs: &mut [PlainPair],
    number: u32,
    step: &Step,
) -> Result<RoomReply, AllocError>
    requires same { length members.old ≡ length pairs.old }
    requires few { length members.old ≤ 256 }
    requires size { HaveRoom (step_size step.now) pairs.old }
    ensures { IfOk result (λ reply. TakesRoomStep (is_here number members.old) (PerformOf number step.now) reply
        members.old pairs.old members.new pairs.new) }
{
    match place_of(members, number) {
        None => Ok(RoomReply::NoMember),
        Some(k) => take_step_at(alloc, members, pairs, k, step),
    }
}

// The member that a datagram is for, which the right peer of a member sent.
fn addressee_of(
    members: &[Member],
    pairs: &[PlainPair],
    k: usize,
    packet: u64,
    now: Moment,
) -> Option<usize>
    requires place { k < length pairs.now }
    requires same { length members.now ≡ length pairs.now }
    ensures { IsFor k packet now (record { members = members.now; pairs = pairs.now }) result }
{
    let pair = &pairs[k];
    addressee(members, pairs, pair.packet(Side::Right, packet), now)
}

// Whether a datagram is for the member at a place.
fn is_for(found: Option<usize>, k: usize) -> bool
    ensures { IsTrue result ↔ (found ≡ Some k) }
{
    match found {
        None => false,
        Some(place) => place == k,
    }
}

// A datagram of the right peer of the member at a place is received.
fn arrive_at(
    alloc: Global,
    members: &mut [Member],
    pairs: &mut [PlainPair],
    k: usize,
    packet: u64,
    now: Moment,
) -> Result<RoomReply, AllocError>
    requires place { k < length members.old }
    requires same { length members.old ≡ length pairs.old }
    requires few { length members.old ≤ 256 }
    requires size { HaveRoom 1 pairs.old }
    ensures { IfOk result (λ reply. TakesRoomStep true (ArriveOf k packet now) reply members.old pairs.old members.new pairs.new) }
{
    let found = addressee_of(members, pairs, k, packet, now);
    if !is_for(found, k) {
        return Ok(RoomReply::NoMember);
    }
    let step = Step::Datagram {
        at: Side::Left,
        packet,
        now,
    };
    let reply = perform(alloc, members, pairs, k, &step)?;
    Ok(RoomReply::Performed(reply))
}

// A datagram of a member's right peer is received.
fn arrive(
    alloc: Global,
    members: &mut [Member],
    pairs: &mut [PlainPair],
    number: u32,
    packet: u64,
    now: Moment,
) -> Result<RoomReply, AllocError>
    requires same { length members.old ≡ length pairs.old }
    requires few { length members.old ≤ 256 }
    requires size { HaveRoom 1 pairs.old }
    ensures { IfOk result (λ reply. TakesRoomStep (is_here number members.old) (ArriveOf number packet now) reply
        members.old pairs.old members.new pairs.new) }
{
    match place_of(members, number) {
        None => Ok(RoomReply::NoMember),
        Some(k) => arrive_at(alloc, members, pairs, k, packet, now),
    }
}

// What waits for the member at a place is written to its line.
fn forward_at(
    alloc: Global,
    members: &mut [Member],
    pairs: &mut [PlainPair],
    k: usize,
) -> Result<RoomReply, AllocError>
    requires place { k < length members.old }
    requires same { length members.old ≡ length pairs.old }
    requires size { HaveRoom 1024 pairs.old }
    ensures { IfOk result (λ reply. TakesRoomStep true (ForwardOf k) reply members.old pairs.old members.new pairs.new) }
{
    let member = &mut members[k];
    let pair = &mut pairs[k];
    forward(alloc, pair, member)
}

// What waits for a member is written to its line.
fn forward_to(
    alloc: Global,
    members: &mut [Member],
    pairs: &mut [PlainPair],
    number: u32,
) -> Result<RoomReply, AllocError>
    requires same { length members.old ≡ length pairs.old }
    requires size { HaveRoom 1024 pairs.old }
    ensures { IfOk result (λ reply. TakesRoomStep (is_here number members.old) (ForwardOf number) reply
        members.old pairs.old members.new pairs.new) }
{
    match place_of(members, number) {
        None => Ok(RoomReply::NoMember),
        Some(k) => forward_at(alloc, members, pairs, k),
    }
}

/// Takes one step of a room.
pub fn take_step(
    alloc: Global,
    members: &mut Vec<Member>,
    pairs: &mut Vec<PlainPair>,
    step: &RoomStep,
) -> Result<RoomReply, AllocError>
    requires same { length members.old.items ≡ length pairs.old.items }
    requires few { length members.old.items ≤ 256 }
    requires size { HaveRoom (room_step_size step.now) pairs.old.items }
    ensures { IfOk result (λ reply. (performed : List (Entry PlainMediaEvent))
        × TakesStep alloc step.now reply (record { members = members.old.items; pairs = pairs.old.items }) performed
        (record { members = members.new.items; pairs = pairs.new.items })) }
{
    match step {
        RoomStep::Join { room } => join(alloc, members, pairs, *room),
        RoomStep::Leave { member } => {
            Ok(leave(members.as_mut_slice(), pairs.as_slice(), *member))
        }
        RoomStep::Perform { member, step } => {
            let members = members.as_mut_slice();
            take_step_of_pair(alloc, members, pairs.as_mut_slice(), *member, step)
        }
        RoomStep::Arrive {
            member,
            packet,
            now,
        } => {
            let members = members.as_mut_slice();
            arrive(alloc, members, pairs.as_mut_slice(), *member, *packet, *now)
        }
        RoomStep::Forward { member } => {
            forward_to(alloc, members.as_mut_slice(), pairs.as_mut_slice(), *member)
        }
    }
}
