//! Addresses as C has them.
ghost use Rattle.std.specs.Prelude.{◌≡◌};
ghost use Rattle.rtc_c_handle.specs.Settings.{addr_of, address_of};

use rtc::Addr;

/// The IPv4 address `a.b.c.d`, and a port.
#[repr(C)]
#[derive(Clone, Copy, Debug, PartialEq, Eq)]
pub struct Address {
    pub a: u8,
    pub b: u8,
    pub c: u8,
    pub d: u8,
    pub port: u16,
}

impl Address {
    // The address as the engine has it.
    pub(crate) fn addr(&self) -> Addr
        ensures { result ≡ addr_of self.now }
    {
        Addr {
            ip: [self.a, self.b, self.c, self.d],
            port: self.port,
        }
    }

    // The address of the engine as C has it.
    pub(crate) fn of_addr(addr: Addr) -> Address
        ensures { result ≡ address_of addr }
    {
        Address {
            a: addr.ip[0],
            b: addr.ip[1],
            c: addr.ip[2],
            d: addr.ip[3],
            port: addr.port,
        }
    }
}
