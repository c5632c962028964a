//! Questions to two peers that are connected.
use crate::ask::Ask;
use crate::exchanging::{drain, meet, pass};
use crate::polled::Polled;
use crate::signals::Signals;
use crate::texts::Texts;
use crate::way::Way;
use crate::wire::Wire;
use crate::work::message;
use rtc_examples_cases::is_true;
use rtc_wire::{Bytes, ChannelId, Span};
use std::alloc::{AllocError, Global};

// Enough for a handshake and an opening.
const ROUNDS: usize = 8;

/// Exchanges datagrams; twenty milliseconds pass before each round.
pub fn exchange<P: Polled>(left: &mut P, right: &mut P, wire: &mut Wire) {
    for _ in 0..ROUNDS {
        pass(left, right, wire, Span::from_millis(20));
    }
}

// Whether each takes the packets of the other one for its own, and not those of a stranger.
fn accept<P: Polled>(left: &P, right: &P) -> bool {
    let near = left.holds(Ask::Accepts(2, 1)) & right.holds(Ask::Accepts(1, 2));
    near & !left.holds(Ask::Accepts(9, 1)) & !right.holds(Ask::Accepts(9, 2))
}

// Whether two messages have these lengths.
fn have_lengths(messages: &[Bytes], first: usize, second: usize) -> bool {
    match messages {
        [one, other] => (one.as_slice().len() == first) & (other.as_slice().len() == second),
        _ => false,
    }
}

// Whether a channel takes as many bytes as are buffered, no byte more, and an empty text, and both messages are received.
fn fill<P: Polled>(
    alloc: Global,
    left: &mut P,
    right: &mut P,
    wire: &mut Wire,
) -> Result<bool, AllocError> {
    let longest = message(alloc, 131_072)?;
    let channel = ChannelId::new(0);
    let taken = left.write(channel, true, longest.as_slice());
    let over = left.write(channel, true, b"a");
    let empty = left.write(channel, false, b"");
    exchange(left, right, wire);
    let came = have_lengths(wire.right.messages.as_slice(), 131_072, 0) & (wire.right.texts == 1);
    Ok(taken & !over & empty & came)
}

// Whether the first datagram of a message of 1,000 bytes has 489: of datagrams of 576 bytes, 88 are for DTLS and SCTP, and a packet has a
// mark of a byte before it.
fn cut<P: Polled>(left: &mut P, wire: &mut Wire) -> bool {
    let taken = left.write(ChannelId::new(0), true, &[5u8; 1000]);
    drain(left, &mut wire.left);
    let length = match wire.left.sent.first() {
        Some(transmit) => transmit.contents.as_slice().len(),
        None => 0,
    };
    taken & (length == 489)
}

/// Whether two peers connect, and return what is expected.
pub fn does_succeed<P: Signals + Polled>(
    alloc: Global,
    left: &mut P,
    right: &mut P,
    example: &str,
) -> bool {
    let mut texts = Texts::new(alloc);
    let mut wire = Wire::new(alloc, Way::plain());
    let met = meet(alloc, left, right, 1, &mut texts);
    exchange(left, right, &mut wire);
    let told = match example {
        "know it" => left.holds(Ask::IsConnected) & right.holds(Ask::IsConnected),
        "take packets of each other" => accept(left, right),
        "cut messages for short datagrams" => cut(left, &mut wire),
        "fill a channel" => is_true(fill(alloc, left, right, &mut wire)),
        _ => false,
    };
    met & told & wire.is_faultless()
}
