//! Outcomes of steps.
use crate::{Made, OpAnswer, PollEnd, Shown};
use rtc_peer_core::RtcError;
use rtc_wire::Seq;

/// The outcome of a step. `E` are the events of the media part.
#[derive(Debug, PartialEq, Eq, Drop)]
pub enum Outcome<E> {
    Negotiated {
        answers: Seq<OpAnswer>,
        made: Made,
    },
    /// The offer was accepted, and the answer of this number was made.
    Answered {
        text: u32,
    },
    /// The answer was accepted.
    Finished,
    /// The peer took the input, or it or one of its channels was closed.
    Done,
    /// Whether the message was taken. It is not if it is longer than what may be buffered yet over all channels.
    Wrote {
        taken: bool,
    },
    /// What the polls of the step gave, in order, and what ended them.
    Polled {
        outputs: Seq<Shown<E>>,
        end: PollEnd,
    },
    /// The peer refused, or a datagram has not the form of its kind.
    Refused(RtcError),
    /// The other side made no such offer or answer or sent no such datagram, or this side holds no such token or has no such
    /// channel that is open.
    NoSuch,
    /// Memory ran out before the peer was called: the step did nothing.
    Alloc,
}
