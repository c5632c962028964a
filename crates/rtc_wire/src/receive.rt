//! Received datagrams, with their addresses.
ghost use Rattle.std.specs.Prelude.{◌≡◌, IfOk, MatchResult, Ok, Err};
ghost use Rattle.rtc_wire.specs.DatagramRecv.{kind_by, kind_said, bytes_lent};

use crate::{Addr, DatagramRecv, NetError, Protocol, StunReader, Transmit};

/// A received datagram, with its protocol and addresses.
#[derive(Clone, Copy, Debug, PartialEq, Eq)]
pub struct Receive<'a> {
    pub proto: Protocol,
    pub source: Addr,
    pub destination: Addr,
    pub contents: DatagramRecv<'a>,
}

impl<'a> Receive<'a> {
    /// The datagram in a buffer, which it lends whole.
    pub fn new<R: StunReader>(
        proto: Protocol,
        source: Addr,
        destination: Addr,
        buf: &'a [u8],
    ) -> Result<Receive<'a>, NetError>
        ensures kind { MatchResult result (λ made. kind_by R.stun buf.now ≡ Ok (kind_said made.contents))
            (λ why. kind_by R.stun buf.now ≡ Err why) }
        ensures lent { IfOk result (λ made. bytes_lent made.contents ≡ buf.now) }
        ensures way { IfOk result (λ made. (made.proto ≡ proto) × (made.source ≡ source) × (made.destination ≡ destination)) }
    {
        let contents = DatagramRecv::read::<R>(buf)?;
        Ok(Receive {
            proto,
            source,
            destination,
            contents,
        })
    }

    /// A datagram as the receiver of a `Transmit` gets it.
    pub fn from_transmit<R: StunReader>(t: &'a Transmit) -> Result<Receive<'a>, NetError>
        ensures kind { MatchResult result (λ made. kind_by R.stun t.now.contents ≡ Ok (kind_said made.contents))
            (λ why. kind_by R.stun t.now.contents ≡ Err why) }
        ensures lent { IfOk result (λ made. bytes_lent made.contents ≡ t.now.contents) }
        ensures way { IfOk result (λ made. (made.proto ≡ t.now.proto) × (made.source ≡ t.now.source)
            × (made.destination ≡ t.now.destination)) }
    {
        Receive::new::<R>(t.proto, t.source, t.destination, t.contents.as_slice())
    }
}
