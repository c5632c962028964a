//! The address that datagrams are sent to.
use rtc_wire::{Addr, Protocol};

/// The pair of addresses that ICE nominated (RFC 8445, section 8.1.1), by which DTLS and media datagrams go.
#[derive(Clone, Copy, Debug, PartialEq, Eq)]
pub struct SendAddr {
    pub proto: Protocol,
    pub source: Addr,
    pub destination: Addr,
}
