//! Refusals of DCEP messages.
ghost use Rattle.std.specs.Prelude.{◌≡◌};
ghost use Rattle.rtc_wire.specs.declared.dcep_error.DcepError.TheVariants.{Alloc};

use std::alloc::AllocError;
use thiserror::Error;

/// Why a DCEP message is not read. The sender is at fault, but for `Alloc`.
#[derive(Debug, PartialEq, Eq, Drop, Error)]
pub enum DcepError {
    /// It ends before what it says does.
    #[error("DCEP open message too small")]
    DcepOpenTooSmall,
    /// Its first byte is that of another message.
    #[error("DCEP incorrect message type")]
    DcepIncorrectMessageType,
    /// Its label or its protocol is not UTF-8.
    #[error("DCEP bad UTF-8 string")]
    DcepBadUtf8,
    /// There is no memory for its texts.
    #[error("out of memory")]
    Alloc,
}

impl From<AllocError> for DcepError {
    ghost from_gives = { λ _ made. made ≡ Alloc };

    fn from(_lacking: AllocError) -> DcepError {
        DcepError::Alloc
    }
}
