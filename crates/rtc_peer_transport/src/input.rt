//! What is given to a peer.
use rtc_wire::{Moment, Receive};

/// What a peer takes from outside.
#[derive(Clone, Copy, Debug, PartialEq, Eq)]
pub enum Input<'a> {
    /// A moment.
    Timeout(Moment),
    /// A datagram received at a moment.
    Receive(Moment, Receive<'a>),
}
