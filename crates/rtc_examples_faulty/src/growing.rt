//! A course that grows by what the peers send, over parts that do not fail.
use crate::course::Course;
use crate::part::Part;
use crate::performing::perform;
use crate::ran::Ran;
use crate::telling::outputs;
use rtc_peer::Event;
use rtc_plain::PlainMediaEvent;
use rtc_run_history::{Reply, Shown, Side};
use rtc_wire::{Moment, Span};
use std::alloc::{AllocError, Global};

// More than peers need to fall silent.
const MOST_ROUNDS: usize = 64;

// Time passes before so many of them. Later no timer becomes due.
const TIMED_ROUNDS: usize = 8;

/// What was reported to both sides so far.
#[derive(Clone, Copy)]
pub struct Told {
    pub connected: usize,
    pub opened: usize,
    pub messages: usize,
    pub closed: usize,
}

impl Told {
    // Adds what an event reports: of a channel, whether it is that of the offer.
    fn add(&mut self, event: &Event<PlainMediaEvent>) {
        match event {
            Event::Connected => self.connected = self.connected.saturating_add(1),
            Event::ChannelOpen(id, label) => {
                if id.number() == 0 && label.as_str() == "a" {
                    self.opened = self.opened.saturating_add(1);
                }
            }
            Event::ChannelData(message) => {
                if message.id.number() == 0 && message.bytes.as_slice() == b"hi".as_slice() {
                    self.messages = self.messages.saturating_add(1);
                }
            }
            Event::ChannelClose(_) => self.closed = self.closed.saturating_add(1),
            _ => {}
        }
    }
}

/// A course, the moment of its last round, and what was reported.
#[derive(Drop)]
pub struct Growth {
    pub course: Course,
    pub now: Moment,
    pub told: Told,
}

impl Growth {
    /// A channel is offered and accepted at moment 0.
    pub fn new(alloc: Global) -> Result<Growth, AllocError> {
        let mut course = Course::new(alloc);
        course.negotiate(alloc)?;
        Ok(Growth {
            course,
            now: Moment::FAR_PAST,
            told: Told {
                connected: 0,
                opened: 0,
                messages: 0,
                closed: 0,
            },
        })
    }

    // Passes on what a reply shows, and returns whether it showed neither an event nor a datagram.
    fn take(
        &mut self,
        to: Side,
        reply: Option<&Reply<PlainMediaEvent>>,
    ) -> Result<bool, AllocError> {
        let Some(reply) = reply else {
            return Ok(false);
        };
        let mut silent = true;
        for shown in outputs(reply) {
            match shown {
                Shown::Timeout(_, _) => {}
                Shown::Packet { number, .. } => {
                    silent = false;
                    self.course.deliver(to, *number, self.now)?;
                }
                Shown::Event(event) => {
                    silent = false;
                    self.told.add(event);
                }
            }
        }
        Ok(silent)
    }

    // Both sides are given a moment and polled, and what they sent is delivered. Returns whether both were silent.
    fn round(&mut self, alloc: Global, span: Span) -> Result<bool, AllocError> {
        self.now = self.now.plus(span);
        let start = self.course.len();
        self.course.pass(Side::Left, self.now)?;
        self.course.pass(Side::Right, self.now)?;
        let Some(steps) = self.course.front(self.course.len()) else {
            return Ok(false);
        };
        let ran = perform(alloc, None, Part::Dtls, &[], steps)?;
        self.take_both(&ran, start)
    }

    // What both sides sent, from left to right first. The replies to their polls are the second and the fourth of the round.
    fn take_both(&mut self, ran: &Ran, start: usize) -> Result<bool, AllocError> {
        let replies = ran.replies.as_slice();
        let left = self.take(Side::Right, replies.get(start.saturating_add(1)))?;
        let right = self.take(Side::Left, replies.get(start.saturating_add(3)))?;
        Ok(left & right)
    }

    /// Rounds up to one in which both sides are silent; so much time passes before each of the first ones. Returns whether there was one.
    pub fn settle(&mut self, alloc: Global, span: Span) -> Result<bool, AllocError> {
        for number in 0..MOST_ROUNDS {
            let passed = if number < TIMED_ROUNDS {
                span
            } else {
                Span::from_nanos(0)
            };
            let silent = self.round(alloc, passed)?;
            if silent & (number >= TIMED_ROUNDS) {
                return Ok(true);
            }
        }
        Ok(false)
    }
}

/// The course of two peers that connect, while so much time passes before each round. At that moment they exchange a
/// message each way, close the channel and close. None if they do not.
pub fn grow(alloc: Global, span: Span) -> Result<Option<Course>, AllocError> {
    let still = Span::from_nanos(0);
    let mut growth = Growth::new(alloc)?;
    let connected = growth.settle(alloc, span)?;
    let opened = (growth.told.connected == 2) & (growth.told.opened == 2);
    growth.course.write(alloc, Side::Left, b"hi")?;
    let there = growth.settle(alloc, still)?;
    growth.course.write(alloc, Side::Right, b"hi")?;
    let back = growth.settle(alloc, still)?;
    let came = growth.told.messages == 2;
    growth.course.close_channel(Side::Left)?;
    let closed = growth.settle(alloc, still)?;
    growth.course.close(Side::Left)?;
    let ended = growth.settle(alloc, still)?;
    let once = (growth.told.closed == 2) & (growth.told.connected == 2) & (growth.told.opened == 2);
    let holds = connected & opened & there & back & came & closed & ended & once;
    Ok(if holds { Some(growth.course) } else { None })
}
