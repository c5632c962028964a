//! Refusals of datagrams.
ghost use Rattle.std.specs.Prelude.{◌≡◌};
ghost use Rattle.rtc_wire.specs.declared.net_error.NetError.TheVariants.{Stun};

use crate::{IoKind, IoText, StunError};
use thiserror::Error;

/// Why a received datagram is refused. The sender is at fault, and nothing has changed.
#[derive(Debug, PartialEq, Eq, Drop, Error)]
pub enum NetError {
    /// It is of the STUN kind, and the reader of STUN refuses it.
    #[error("{0}")]
    Stun(StunError),
    /// It is empty, or of no kind.
    #[error("{1}")]
    Io(IoKind, IoText),
}

impl From<StunError> for NetError {
    ghost from_gives = { λ why made. made ≡ Stun why };

    fn from(why: StunError) -> NetError {
        NetError::Stun(why)
    }
}
