//! Steps of two ends.
ghost use Rattle.std.specs.Prelude.{◌≡◌};
ghost use Rattle.rtc_assoc.specs.Steps.{at_left};

use rtc_parts::Ppi;
use rtc_wire::{Bytes, Moment};

/// One call at one of two ends, the left or the right one.
#[derive(Debug, PartialEq, Eq, Drop)]
pub enum AssocStep {
    /// Starts the end as the client at moment 0, with the longest send limit.
    Connect {
        left: bool,
    },
    /// Starts the end as the server at moment 0, with the longest send limit.
    Accept {
        left: bool,
    },
    Open {
        left: bool,
        id: u16,
    },
    Write {
        left: bool,
        id: u16,
        ppi: Ppi,
        bytes: Bytes,
    },
    CloseStream {
        left: bool,
        id: u16,
    },
    Time {
        left: bool,
        now: Moment,
    },
    /// Takes a packet of the end.
    Transmit {
        left: bool,
    },
    /// Gives the end a packet that the other one transmitted. Packets are numbered from 0 over both ends.
    Deliver {
        left: bool,
        packet: u32,
        now: Moment,
    },
    Poll {
        left: bool,
    },
    Read {
        left: bool,
        id: u16,
    },
}

impl AssocStep {
    /// Whether the step is one of the left end.
    pub fn at_left(&self) -> bool
        ensures { result ≡ at_left self.now }
    {
        match self {
            AssocStep::Connect { left } => *left,
            AssocStep::Accept { left } => *left,
            AssocStep::Open { left, .. } => *left,
            AssocStep::Write { left, .. } => *left,
            AssocStep::CloseStream { left, .. } => *left,
            AssocStep::Time { left, .. } => *left,
            AssocStep::Transmit { left } => *left,
            AssocStep::Deliver { left, .. } => *left,
            AssocStep::Poll { left } => *left,
            AssocStep::Read { left, .. } => *left,
        }
    }
}
