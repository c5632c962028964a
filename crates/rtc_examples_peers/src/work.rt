//! Amounts of work.
use crate::exchanging::{meet, pass, settle};
use crate::numbers::number;
use crate::polled::Polled;
use crate::signals::Signals;
use crate::texts::Texts;
use crate::way::Way;
use crate::wire::Wire;
use rtc_wire::{Bytes, ChannelId, Span};
use rtc_wire_drops::release;
use std::alloc::{AllocError, Global};

// Checks, the handshake and the openings of channels follow each other.
const WAKES: usize = 4;

/// What two peers are to do.
#[derive(Clone, Copy)]
pub struct Work {
    pub channels: u32,
    pub messages: u32,
    /// The bytes of a message.
    pub bytes: u32,
    /// Whether the messages go over all channels in turn; all go over the last one else.
    pub in_turn: bool,
    /// Whether moments are taken in place of messages.
    pub is_idle: bool,
}

impl Work {
    // By the words of a line.
    fn read(line: &str) -> Work {
        let mut words = line.split(' ');
        let how = words.next().unwrap_or("");
        let channels = number(words.next());
        let messages = number(words.next());
        let bytes = number(words.next());
        Work {
            channels,
            messages,
            bytes,
            in_turn: how == "turn",
            is_idle: how == "idle",
        }
    }

    // The channel of a message.
    fn channel(self, message: u32) -> ChannelId {
        if self.channels == 0 {
            return ChannelId::new(0);
        }
        if self.in_turn {
            return ChannelId::new((message % self.channels) as u64);
        }
        ChannelId::new((self.channels - 1) as u64)
    }
}

/// A message of so many bytes.
pub fn message(alloc: Global, bytes: u32) -> Result<Vec<u8>, AllocError> {
    let mut message = Vec::new(alloc);
    for _ in 0..bytes {
        message.push(7u8)?;
    }
    Ok(message)
}

/// Gives two peers the moments at which they connect and open channels. All happens at moment 0.
pub fn begin<P: Polled>(left: &mut P, right: &mut P, wire: &mut Wire) {
    for _ in 0..WAKES {
        pass(left, right, wire, Span::from_nanos(0));
    }
}

// Sends messages from left to right, each once the one before was read and acknowledged, or gives both peers so many moments.
fn send<P: Polled>(left: &mut P, right: &mut P, wire: &mut Wire, work: Work, message: &[u8]) {
    for number in 0..work.messages {
        if work.is_idle {
            pass(left, right, wire, Span::from_nanos(0));
        } else {
            left.write(work.channel(number), true, message);
            settle(left, right, wire);
        }
    }
}

fn all_have_length(messages: &[Bytes], length: usize) -> bool {
    for message in messages {
        if message.as_slice().len() != length {
            return false;
        }
    }
    true
}

// Whether all channels were opened at both ends, all messages were received, and neither peer failed.
fn is_done(wire: &Wire, work: Work) -> bool {
    let channels = work.channels as usize;
    let opened = (wire.left.opened == channels) & (wire.right.opened == channels);
    let messages = if work.is_idle { 0 } else { work.messages };
    let came = wire.right.messages.len() == messages as usize;
    let whole = all_have_length(wire.right.messages.as_slice(), work.bytes as usize);
    opened & came & whole & wire.is_faultless()
}

/// Whether two peers that buffer as much as the longest message is open so many channels. They send so many messages of
/// so many bytes over the last one, or over all in turn, or none while they are given as many moments.
pub fn does_come<P: Signals + Polled>(
    alloc: Global,
    left: &mut P,
    right: &mut P,
    line: &str,
) -> Result<bool, AllocError> {
    let work = Work::read(line);
    let message = message(alloc, work.bytes)?;
    let mut texts = Texts::new(alloc);
    let met = meet(alloc, left, right, work.channels, &mut texts);
    let mut wire = Wire::new(alloc, Way::plain());
    begin(left, right, &mut wire);
    send(left, right, &mut wire, work, message.as_slice());
    let done = is_done(&wire, work);
    release(wire, Ok(met & done))
}
