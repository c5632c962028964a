//! Messages that a hub forwards to a member.
use crate::room_course::RoomCourse;
use crate::room_meeting::{MEETING, meet};
use crate::table::number;
use crate::telling::outputs;
use rtc_peer::Event;
use rtc_plain::PlainMediaEvent;
use rtc_room_hub::run_room;
use rtc_room_laws::RoomReply;
use rtc_run::PlainPair;
use rtc_run_history::{Reply, Shown, Side};
use rtc_wire_drops::release;
use std::alloc::{AllocError, Global};

// The messages of the last batch.
const LAST: u64 = 10;

// The item of a text of one letter of member 0: the number of the sender, that it is text, and the letter.
static ITEM: [u8; 6] = [0, 0, 0, 0, 0, 104];

/// What a line asks for.
#[derive(Clone, Copy)]
struct Amounts {
    // All in one room.
    members: u64,
    // So many batches are forwarded and acknowledged before the last one.
    batches: u64,
    // The messages of each.
    size: u64,
    // So often is the last one forwarded.
    forwards: u64,
}

impl Amounts {
    fn read(line: &str) -> Amounts {
        let mut words = line.split(' ');
        Amounts {
            members: number(words.next()),
            batches: number(words.next()),
            size: number(words.next()),
            forwards: number(words.next()),
        }
    }
}

// The hub is given so many datagrams of a member.
fn arrive_all(
    course: &mut RoomCourse,
    member: u32,
    first: u64,
    count: u64,
) -> Result<(), AllocError> {
    for k in 0..count {
        course.arrive(member, first.saturating_add(k))?;
    }
    Ok(())
}

// A member is given so many datagrams of the hub.
fn deliver_all(
    course: &mut RoomCourse,
    member: u32,
    first: u64,
    count: u64,
) -> Result<(), AllocError> {
    for k in 0..count {
        course.deliver(member, first.saturating_add(k))?;
    }
    Ok(())
}

// Member 0 writes so many messages, which the hub hears and acknowledges.
fn talk(alloc: Global, course: &mut RoomCourse, first: u64, count: u64) -> Result<(), AllocError> {
    for _ in 0..count {
        course.write(alloc, 0, b"h")?;
    }
    course.drain(0, Side::Right)?;
    arrive_all(course, 0, first, count)?;
    course.drain(0, Side::Left)?;
    deliver_all(course, 0, first.saturating_add(count), count)
}

// What waits for member 1 is forwarded, which it hears and acknowledges.
fn hear(course: &mut RoomCourse, first: u64, count: u64) -> Result<(), AllocError> {
    course.forward(1)?;
    course.drain(1, Side::Left)?;
    deliver_all(course, 1, first, count)?;
    course.drain(1, Side::Right)?;
    arrive_all(course, 1, first.saturating_add(count), count)
}

// All that happens.
fn plan(alloc: Global, amounts: Amounts) -> Result<RoomCourse, AllocError> {
    let mut course = RoomCourse::new(alloc);
    for _ in 0..amounts.members {
        course.join(0)?;
    }
    meet(alloc, &mut course, 0)?;
    meet(alloc, &mut course, 1)?;
    let mut first = MEETING;
    for _ in 0..amounts.batches {
        talk(alloc, &mut course, first, amounts.size)?;
        hear(&mut course, first, amounts.size)?;
        first = first
            .saturating_add(amounts.size)
            .saturating_add(amounts.size);
    }
    talk(alloc, &mut course, first, LAST)?;
    for _ in 0..amounts.forwards {
        course.forward(1)?;
    }
    Ok(course)
}

// What the replies tell.
#[derive(Clone, Copy)]
struct Told {
    joined: u64,
    // The messages that were forwarded, and those of them that were heard.
    forwarded: u64,
    heard: u64,
    // Whether a step was not taken.
    refused: bool,
}

impl Told {
    fn add_event(&mut self, event: &Event<PlainMediaEvent>) {
        match event {
            Event::ChannelData(message) => {
                if message.bytes.as_slice() == ITEM.as_slice() {
                    self.heard = self.heard.saturating_add(1);
                }
            }
            _ => {}
        }
    }

    fn add_performed(&mut self, reply: &Reply<PlainMediaEvent>) {
        for shown in outputs(reply) {
            if let Shown::Event(event) = shown {
                self.add_event(event);
            }
        }
    }

    fn add(&mut self, reply: &RoomReply) {
        match reply {
            RoomReply::Joined { .. } => self.joined = self.joined.saturating_add(1),
            RoomReply::Performed(reply) => self.add_performed(reply),
            RoomReply::Forwarded { taken } => {
                self.forwarded = self.forwarded.saturating_add(*taken as u64);
            }
            _ => self.refused = true,
        }
    }

    // What all replies tell.
    fn of(replies: &[RoomReply]) -> Told {
        let mut told = Told {
            joined: 0,
            forwarded: 0,
            heard: 0,
            refused: false,
        };
        for reply in replies {
            told.add(reply);
        }
        told
    }

    // Whether all came: each message of a whole batch was heard, and those of the last one were forwarded if they were to be.
    fn is_due(&self, amounts: Amounts) -> bool {
        let whole = amounts.batches.saturating_mul(amounts.size);
        let last = if amounts.forwards > 0 { LAST } else { 0 };
        (self.joined == amounts.members)
            & (self.heard == whole)
            & (self.forwarded == whole.saturating_add(last))
            & !self.refused
    }
}

// Whether the replies of a room are those that are due.
fn judge(
    replies: Result<Vec<RoomReply>, AllocError>,
    amounts: Amounts,
) -> Result<bool, AllocError> {
    let replies = replies?;
    Ok(Told::of(replies.as_slice()).is_due(amounts))
}

/// Whether messages of member 0 of a room are forwarded to member 1, and are heard there. The line names the members of the
/// room, batches, the messages of each, and how often the hub forwards what it heard behind them, ten messages.
pub fn does_forward(alloc: Global, line: &str) -> Result<bool, AllocError> {
    let amounts = Amounts::read(line);
    let course = plan(alloc, amounts)?;
    let Some(steps) = course.all() else {
        return Ok(false);
    };
    let mut pairs = Vec::new(alloc);
    let replies = run_room(alloc, steps, &mut pairs);
    release(pairs, judge(replies, amounts))
}
