//! Checks.
use rtc_wire::{Addr, Moment, Protocol};

/// The two ends of a pair, from here to the other side.
#[derive(Clone, Copy)]
pub struct Ends {
    pub proto: Protocol,
    pub source: Addr,
    pub destination: Addr,
}

/// A check without a response so far, with the moments at which it was made and at which the next is due.
#[derive(Clone, Copy)]
pub struct Check {
    pub number: u64,
    pub ends: Ends,
    pub made: Moment,
    pub due: Moment,
}
