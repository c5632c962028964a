//! Polls of a peer that has nothing to tell.
use crate::exchanging::{drain, meet};
use crate::numbers::number;
use crate::outputs::Outputs;
use crate::polled::Polled;
use crate::signals::Signals;
use crate::texts::Texts;
use crate::way::Way;
use crate::wire::Wire;
use crate::work::{begin, message};
use rtc_faulty::{CallCounts, CallKind};
use rtc_wire::{ChannelId, Moment};
use rtc_wire_drops::release;
use std::alloc::{AllocError, Global};

/// What examples ask of a peer beside signals, inputs and outputs: media lines, and the timeout that it keeps. A function
/// over it is checked without what a peer consists of.
pub trait Resting {
    /// Declares so many media lines. Returns whether all of them are new.
    fn declares(&mut self, alloc: Global, lines: u32) -> bool;

    /// Polls so often. Returns whether each poll returns the timeout of a moment.
    fn waits(&mut self, polls: u32, moment: Moment) -> bool;

    /// Whether it keeps the timeout of a moment, or none.
    fn keeps(&self, moment: Option<Moment>) -> bool;
}

/// What a peer has, and how it is polled.
#[derive(Clone, Copy)]
pub struct Rest {
    pub lines: u32,
    pub channels: u32,
    /// The messages that are written at once.
    pub burst: u32,
    pub polls: u32,
}

impl Rest {
    // By the words of a line.
    fn read(line: &str) -> Rest {
        let mut words = line.split(' ');
        let lines = number(words.next());
        let channels = number(words.next());
        let burst = number(words.next());
        let polls = number(words.next());
        Rest {
            lines,
            channels,
            burst,
            polls,
        }
    }
}

// Two peers that agree on channels open them. Without a channel they do not meet.
fn connect<P: Signals + Polled>(
    alloc: Global,
    left: &mut P,
    right: &mut P,
    wire: &mut Wire,
    channels: u32,
) -> bool {
    if channels == 0 {
        return true;
    }
    let mut texts = Texts::new(alloc);
    let met = meet(alloc, left, right, channels, &mut texts);
    begin(left, right, wire);
    met & (wire.left.opened == channels as usize)
}

// Messages are written to the last channel.
fn write<P: Polled>(peer: &mut P, rest: Rest, message: &[u8]) -> bool {
    let mut taken = true;
    for _ in 0..rest.burst {
        let last = ChannelId::new(rest.channels.saturating_sub(1) as u64);
        taken = taken & peer.write(last, true, message);
    }
    taken
}

// Each message is a packet, and one drain sends all of them: it reads each stream once at most. After a write the peer keeps no timeout.
fn bursts<P: Polled + Resting>(
    peer: &mut P,
    outputs: &mut Outputs,
    calls: &CallCounts,
    rest: Rest,
    message: &[u8],
) -> bool {
    if rest.burst == 0 {
        return true;
    }
    let before = outputs.sent.len();
    let taken = write(peer, rest, message);
    let awake = peer.keeps(None);
    let read = calls.of(CallKind::Message);
    drain(peer, outputs);
    let reads = calls.of(CallKind::Message).saturating_sub(read);
    let sent = outputs.sent.len().saturating_sub(before);
    taken & awake & (reads <= rest.channels as u64) & (sent == rest.burst as usize)
}

// A drained peer keeps the timeout that the drain ended with. Polls return it, and call no part.
fn waits<P: Resting>(peer: &mut P, moment: Moment, calls: &CallCounts, polls: u32) -> bool {
    let kept = peer.keeps(Some(moment));
    let made = calls.total();
    let waited = peer.waits(polls, moment);
    kept & waited & (calls.total() == made) & peer.keeps(Some(moment))
}

// Whether a peer is as due when it is fresh, drained, and drained of a burst.
fn rests<P: Signals + Polled + Resting>(
    alloc: Global,
    left: &mut P,
    right: &mut P,
    wire: &mut Wire,
    calls: &CallCounts,
    rest: Rest,
    message: &[u8],
) -> bool {
    let fresh = left.keeps(None);
    let met = connect(alloc, left, right, wire, rest.channels);
    let declared = left.declares(alloc, rest.lines);
    drain(left, &mut wire.left);
    let sent = bursts(left, &mut wire.left, calls, rest, message);
    let moment = wire.left.timeout;
    let waited = waits(left, moment, calls, rest.polls);
    fresh & met & declared & sent & waited & wire.is_faultless()
}

/// Whether a peer with so many media lines and open channels is drained, also of a burst of messages, and then polled so
/// often without a call of a part, if these are the counts of the calls.
pub fn does_rest<P: Signals + Polled + Resting>(
    alloc: Global,
    left: &mut P,
    right: &mut P,
    calls: &CallCounts,
    line: &str,
) -> Result<bool, AllocError> {
    let rest = Rest::read(line);
    let message = message(alloc, 10)?;
    let mut wire = Wire::new(alloc, Way::plain());
    let whole = rests(
        alloc,
        left,
        right,
        &mut wire,
        calls,
        rest,
        message.as_slice(),
    );
    release(wire, Ok(whole))
}
