//! Datagrams with their addresses.
use crate::{Addr, DatagramSend, Protocol};

/// A datagram to be sent, with its protocol and addresses.
#[derive(Debug, PartialEq, Eq, Drop)]
pub struct Transmit {
    pub proto: Protocol,
    pub source: Addr,
    pub destination: Addr,
    pub contents: DatagramSend,
}
