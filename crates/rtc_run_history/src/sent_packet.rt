//! Datagrams that a pair keeps.
use crate::Side;
use rtc_wire::Transmit;

/// A datagram that the peer at `at` sent, as it was polled.
#[derive(Debug, PartialEq, Eq, Drop)]
pub struct SentPacket {
    pub at: Side,
    pub transmit: Transmit,
}
