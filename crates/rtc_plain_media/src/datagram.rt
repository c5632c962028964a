//! The datagrams that the part makes.
ghost use Rattle.std.specs.Prelude.{◌≡◌, ◌++◌, IfOk};
ghost use Rattle.rtc_plain_media.specs.Feedback.{datagram_of};

use rtc_wire::{Bytes, DatagramSend};
use std::alloc::{AllocError, Global};

/// An RTCP packet with this type and these bytes behind its header (RFC 3550, section 6.4.1; no length is written).
pub fn datagram(alloc: Global, packet_type: u8, payload: &[u8]) -> Result<DatagramSend, AllocError>
    ensures { IfOk result (λ made. made ≡ datagram_of packet_type payload.now) }
{
    let mut bytes = Vec::from_slice(alloc, &[0x80, packet_type, 0, 0])?;
    bytes.extend_from_slice(payload)?;
    Ok(DatagramSend::new(Bytes::new(bytes)))
}
