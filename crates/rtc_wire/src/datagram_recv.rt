//! Received datagrams.
ghost use Rattle.std.specs.Prelude.{◌≡◌, IfOk, MatchResult, Ok, Err};
ghost use Rattle.rtc_wire.specs.DatagramRecv.{kind_by, kind_said, bytes_lent};

use crate::{MultiplexKind, NetError, StunReader, StunView};
use std::fmt;

/// A received datagram, by its kind. Each variant lends the whole datagram.
#[derive(Clone, Copy, PartialEq, Eq)]
pub enum DatagramRecv<'a> {
    Stun(StunView<'a>),
    Dtls(&'a [u8]),
    Rtp(&'a [u8]),
    Rtcp(&'a [u8]),
}

impl<'a> DatagramRecv<'a> {
    /// The datagram of these bytes; one of the STUN kind has to pass the reader too.
    pub fn read<R: StunReader>(bytes: &'a [u8]) -> Result<DatagramRecv<'a>, NetError>
        ensures kind { MatchResult result (λ datagram. kind_by R.stun bytes.now ≡ Ok (kind_said datagram))
            (λ why. kind_by R.stun bytes.now ≡ Err why) }
        ensures lent { IfOk result (λ datagram. bytes_lent datagram ≡ bytes.now) }
    {
        match MultiplexKind::read(bytes)? {
            MultiplexKind::Stun => {
                R::check(bytes)?;
                Ok(DatagramRecv::Stun(StunView { bytes }))
            }
            MultiplexKind::Dtls => Ok(DatagramRecv::Dtls(bytes)),
            MultiplexKind::Rtp => Ok(DatagramRecv::Rtp(bytes)),
            MultiplexKind::Rtcp => Ok(DatagramRecv::Rtcp(bytes)),
        }
    }
}

impl fmt::Debug for DatagramRecv<'_> {
    fn fmt<W: fmt::Write>(&self, f: &mut fmt::Formatter<W>) -> fmt::Result {
        match self {
            DatagramRecv::Stun(view) => write!(f, "Stun(len: {})", view.bytes.len()),
            DatagramRecv::Dtls(bytes) => write!(f, "Dtls(len: {})", bytes.len()),
            DatagramRecv::Rtp(bytes) => write!(f, "Rtp(len: {})", bytes.len()),
            DatagramRecv::Rtcp(bytes) => write!(f, "Rtcp(len: {})", bytes.len()),
        }
    }
}
