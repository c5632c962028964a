//! What waits for a member is written to its line.
ghost use Rattle.std.specs.Prelude.{◌≡◌, ◌≤◌, ◌+◌, ◌<◌, ◌^◌, List, Some, false, length, IfOk};
ghost use Rattle.rtc_plain_media.specs.declared.plain_media_event.PlainMediaEvent.{PlainMediaEvent};
ghost use Rattle.rtc_run_history.specs.Past.{Entry};
ghost use Rattle.rtc_room_laws.specs.Forwarding.{Forwards};
ghost use Rattle.rtc_room_hub.specs.SentItems.{SendsItem, SentUpTo, sent_in_outcome};

use crate::member::Member;
use crate::sent::{Sent, SentItems};
use rtc_plain::PlainMediaEvent;
use rtc_room_laws::{Item, RoomReply};
use rtc_run::PlainPair;
use rtc_run_history::{Outcome, Side, Step};
use rtc_wire::ChannelId;
use std::alloc::{AllocError, Global};

fn sent_in_outcome(outcome: &Outcome<PlainMediaEvent>) -> Sent
    ensures { result ≡ sent_in_outcome outcome.now }
{
    match outcome {
        Outcome::Wrote { taken } => { if *taken { Sent::Taken } else { Sent::Waits } }
        Outcome::Refused(_) => Sent::Refused,
        _ => Sent::Waits,
    }
}

// Writes an item to the line of a member.
fn send_item(
    alloc: Global,
    pair: &mut PlainPair,
    line: ChannelId,
    item: &Item,
) -> Result<Sent, AllocError>
    requires { pair.old.size + 1 < 2 ^ 32 }
    ensures { IfOk result (λ sent. SendsItem line item.now pair.old sent pair.new) }
{
    let bytes = item.written(alloc)?;
    let step = Step::Write {
        at: Side::Left,
        channel: line,
        binary: true,
        bytes,
    };
    let reply = pair.perform(&step);
    if reply.is_out_of_memory() {
        return Err(AllocError);
    }
    Ok(sent_in_outcome(&reply.outcome))
}

// Writes items to the line of a member, until one is not taken.
fn send_items(
    alloc: Global,
    pair: &mut PlainPair,
    line: ChannelId,
    items: &[Item],
) -> Result<SentItems, AllocError>
    requires { pair.old.size + length items.now < 2 ^ 32 }
    ensures few { IfOk result (λ sent. sent.taken ≤ length items.now) }
    ensures sends { IfOk result (λ sent. SentUpTo line items.now sent.taken sent.is_refused pair.old pair.new) }
{
    let mut taken = 0;
    while taken < items.len() {
        let sent = send_item(alloc, pair, line, &items[taken])?;
        match sent {
            Sent::Taken => taken += 1,
            Sent::Waits => {
                return Ok(SentItems {
                    taken,
                    is_refused: false,
                });
            }
            Sent::Refused => {
                return Ok(SentItems {
                    taken,
                    is_refused: true,
                });
            }
        }
    }
    Ok(SentItems {
        taken,
        is_refused: false,
    })
}

// Writes what waits for a member that was not put out to its line.
fn send_queue(
    alloc: Global,
    pair: &mut PlainPair,
    member: &mut Member,
    line: ChannelId,
) -> Result<RoomReply, AllocError>
    requires { pair.old.size + 1024 < 2 ^ 32 }
    ensures { IfOk result (λ reply. (performed : List (Entry PlainMediaEvent)) × (length performed ≤ 1024)
        × Forwards false (Some line) member.old pair.old reply performed member.new pair.new) }
{
    let sent = send_items(alloc, pair, line, member.queue())?;
    let is_refused = sent.is_refused;
    if is_refused {
        member.put_out();
        return Ok(RoomReply::PutOut);
    }
    member.take_off(sent.taken)?;
    Ok(RoomReply::Forwarded {
        taken: sent.taken as u32,
    })
}

/// Writes what waits for a member to its line.
pub fn forward(
    alloc: Global,
    pair: &mut PlainPair,
    member: &mut Member,
) -> Result<RoomReply, AllocError>
    requires { pair.old.size + 1024 < 2 ^ 32 }
    ensures { IfOk result (λ reply. (performed : List (Entry PlainMediaEvent)) × (length performed ≤ 1024)
        × Forwards member.old.is_put_out member.old.line member.old pair.old reply performed member.new pair.new) }
{
    if member.is_put_out() {
        return Ok(RoomReply::PutOut);
    }
    match member.line() {
        None => Ok(RoomReply::Forwarded { taken: 0 }),
        Some(line) => send_queue(alloc, pair, member, line),
    }
}
