//! Kinds of datagrams.
ghost use Rattle.std.specs.Prelude.{◌≡◌};
ghost use Rattle.rtc_wire.specs.MultiplexKind.{datagram_kind, is_control as IsControl};

use crate::{IoKind, IoText, NetError};

/// The kind of a datagram, if STUN, DTLS, RTP and RTCP share a port (RFC 7983, section 7).
#[derive(Clone, Copy, Debug, PartialEq, Eq)]
pub enum MultiplexKind {
    Stun,
    Dtls,
    Rtp,
    Rtcp,
}

/// Whether the second byte of an RTP or RTCP packet says RTCP (RFC 5761, section 4).
fn is_control(second: u8) -> bool
    ensures { result ≡ IsControl second }
{
    (64..96).contains(&(second & 0x7f))
}

impl MultiplexKind {
    /// The kind that the first bytes of a datagram say.
    pub fn read(bytes: &[u8]) -> Result<MultiplexKind, NetError>
        ensures { result ≡ datagram_kind bytes.now }
    {
        match bytes {
            [] => Err(NetError::Io(IoKind::InvalidData, IoText::EmptyDatagram)),
            [0..=1, ..] if bytes.len() >= 20 => Ok(MultiplexKind::Stun),
            [20..=63, ..] => Ok(MultiplexKind::Dtls),
            [128..=191, second, _, ..] => {
                if is_control(*second) {
                    Ok(MultiplexKind::Rtcp)
                } else {
                    Ok(MultiplexKind::Rtp)
                }
            }
            _ => Err(NetError::Io(IoKind::InvalidData, IoText::UnknownDatagram)),
        }
    }
}
