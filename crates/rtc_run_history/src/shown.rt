//! Outputs that replies show.
use rtc_parts::Reason;
use rtc_peer_transport::Event;
use rtc_wire::Moment;

/// An output of a poll, as a reply shows it. `E` are the events of the media part.
#[derive(Debug, PartialEq, Eq, Drop)]
pub enum Shown<E> {
    /// When a timeout is wanted as input, and what for.
    Timeout(Moment, Reason),
    /// A datagram was sent: its number, and how many bytes it has.
    Packet { number: u64, len: usize },
    Event(Event<E>),
}
