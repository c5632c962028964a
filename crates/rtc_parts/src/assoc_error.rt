//! Why an association refuses.
use std::alloc::{AllocError, AllocFailed};
use thiserror::Error;

/// Why a call of an association did nothing: the first cause that holds.
#[derive(Clone, Copy, Debug, PartialEq, Eq, Error)]
pub enum AssocError {
    #[error("the stream is there")]
    StreamExists,
    /// A reset of the stream is outstanding.
    #[error("a reset of the stream is outstanding")]
    ResetPending,
    /// The stream is not there, or this end closed it.
    #[error("no such stream")]
    NoStream,
    /// The message is longer than the other end takes.
    #[error("the message is too long")]
    TooLong,
    /// The association is closing or closed.
    #[error("the association is closing")]
    Closing,
    /// The device failed. Its count of faults rose.
    #[error("the association failed")]
    Fault,
    #[error("out of memory")]
    Alloc,
}

impl From<AllocError> for AssocError {
    ghost use Rattle.std.specs.Prelude.{◌≡◌};
    ghost use Rattle.rtc_parts.specs.declared.assoc_error.AssocError.TheVariants.{Alloc};

    ghost from_gives = { λ _ e. e ≡ Alloc };

    fn from(_e: AllocError) -> AssocError {
        AssocError::Alloc
    }
}

impl<T: Drop> From<AllocFailed<T>> for AssocError {
    ghost use Rattle.std.specs.Prelude.{◌≡◌};
    ghost use Rattle.rtc_parts.specs.declared.assoc_error.AssocError.TheVariants.{Alloc};

    ghost from_gives = { λ _ e. e ≡ Alloc };

    fn from(_e: AllocFailed<T>) -> AssocError {
        AssocError::Alloc
    }
}
