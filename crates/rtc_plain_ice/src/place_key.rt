//! Addresses and protocols as keys of a table.
ghost use Rattle.std.specs.Prelude.{◌≡◌};
ghost use Rattle.rtc_plain_ice.specs.Places.{protocol_number};
ghost use Rattle.rtc_plain_ice.specs.PlaceTables.{addr_key, place_key};

use crate::addr_key::AddrKey;
use rtc_sdp_values::Candidate;
use rtc_wire::Protocol;

/// The protocol and the address of a candidate, by which its table finds it.
#[derive(Clone, Copy, PartialEq, Eq, Hash)]
pub struct PlaceKey {
    pub proto: u8,
    pub addr: AddrKey,
}

fn number(proto: Protocol) -> u8
    ensures { result ≡ protocol_number proto }
{
    match proto {
        Protocol::Udp => 0,
        Protocol::Tcp => 1,
        Protocol::SslTcp => 2,
        Protocol::Tls => 3,
    }
}

impl PlaceKey {
    pub fn of_candidate(c: &Candidate) -> PlaceKey
        ensures { result ≡ place_key c.now }
    {
        PlaceKey {
            proto: number(c.proto),
            addr: AddrKey::new(&c.addr),
        }
    }
}
