//! How long a channel resends.
ghost use Rattle.std.specs.Prelude.{◌≡◌};
ghost use Rattle.rtc_wire.specs.Reliability.{parts_of, reliability_of};
ghost use Rattle.rtc_wire.specs.declared.reliability.Reliability.TheVariants.{Reliable};

use crate::{ReliabilityType, TryCopy};
use std::alloc::AllocError;

/// How long a channel's messages are resent (RFC 8832, section 5.1).
#[derive(Clone, Copy, Debug, PartialEq, Eq, Hash)]
pub enum Reliability {
    /// Until they arrive.
    Reliable,
    /// For a number of milliseconds.
    MaxPacketLifetime { lifetime: u16 },
    /// A number of times.
    MaxRetransmits { retransmits: u16 },
}

impl Reliability {
    /// The type and the parameter that an open message carries for it.
    pub fn parts(&self) -> (ReliabilityType, u32)
        ensures parts { result ≡ parts_of self.now }
        ensures reverse { reliability_of result.0 result.1 ≡ self.now }
    {
        match *self {
            Reliability::Reliable => (ReliabilityType::Reliable, 0),
            Reliability::MaxPacketLifetime { lifetime } => {
                (ReliabilityType::Timed, lifetime as u32)
            }
            Reliability::MaxRetransmits { retransmits } => {
                (ReliabilityType::Rexmit, retransmits as u32)
            }
        }
    }

    /// The reliability of a type and a parameter, of which `Reliable` ignores the latter.
    pub fn from_parts(t: ReliabilityType, p: u32) -> Reliability
        ensures { result ≡ reliability_of t p }
    {
        let most = p.min(65535) as u16;
        match t {
            ReliabilityType::Reliable => Reliability::Reliable,
            ReliabilityType::Rexmit => Reliability::MaxRetransmits { retransmits: most },
            ReliabilityType::Timed => Reliability::MaxPacketLifetime { lifetime: most },
        }
    }
}

impl Default for Reliability {
    ghost is_default = { λ made. made ≡ Reliable };

    fn default() -> Reliability {
        Reliability::Reliable
    }
}

impl TryCopy for Reliability {
    fn copy(&self) -> Result<Reliability, AllocError> {
        Ok(*self)
    }
}
