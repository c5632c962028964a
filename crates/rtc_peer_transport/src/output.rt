//! What a poll returns.
use crate::Event;
use rtc_wire::{Moment, Transmit};

/// What a poll returns: the next event or datagram, or the moment of a timeout.
#[derive(Debug, PartialEq, Eq, Drop)]
pub enum Output<E> {
    /// Nothing is left until this moment, at which a timeout is wanted as input; `FAR_FUTURE` if none is.
    Timeout(Moment),
    /// A datagram to be sent.
    Transmit(Transmit),
    Event(Event<E>),
}
