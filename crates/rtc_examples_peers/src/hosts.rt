//! Addresses of peers.
ghost use Rattle.std.specs.Prelude.{◌≡◌};

use rtc_peer::Candidate;
use rtc_wire::{Addr, Protocol};
use std::alloc::{AllocError, Global};

/// The address of a host, by its number.
pub fn host(number: u8) -> Addr
    ensures port { result.port ≡ 1000 }
{
    Addr {
        ip: [number, number, number, number],
        port: 1000,
    }
}

/// The candidate of a host (RFC 8445, section 5.1.1.1).
pub fn candidate(alloc: Global, number: u8) -> Result<Candidate, AllocError> {
    Candidate::host(alloc, host(number), Protocol::Udp)
}
