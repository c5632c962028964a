//! Addresses as keys of a table.
ghost use Rattle.std.specs.Prelude.{◌≡◌};
ghost use Rattle.rtc_plain_ice.specs.PlaceTables.{addr_key};

use rtc_wire::Addr;

/// An address, by which its table finds it.
#[derive(Clone, Copy, PartialEq, Eq, Hash)]
pub struct AddrKey {
    pub port: u16,
    pub ip: [u8; 4],
}

impl AddrKey {
    pub fn new(a: &Addr) -> AddrKey
        ensures { result ≡ addr_key a.now }
    {
        AddrKey {
            port: a.port,
            ip: a.ip,
        }
    }
}
