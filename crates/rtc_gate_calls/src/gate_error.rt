//! Why the gateway refuses a call.
ghost use Rattle.std.specs.Prelude.{◌≡◌};
ghost use Rattle.rtc_gate_calls.specs.declared.gate_error.GateError.TheVariants.{Alloc};

use std::alloc::{AllocError, AllocFailed};
use thiserror::Error;

/// Why the gateway refuses a call.
#[derive(Clone, Copy, Debug, PartialEq, Eq, Error)]
pub enum GateError {
    /// A name is 1 to 32 token characters (RFC 8866, section 9).
    #[error("bad name")]
    BadName,
    /// A connection that is here has the name.
    #[error("name taken")]
    NameTaken,
    /// As many connections are here as may be.
    #[error("full")]
    Full,
    /// The connection never joined, or has left.
    #[error("no such connection")]
    NoSuch,
    /// Behind so many bytes the stream has what is no incoming frame. The stream cannot be taken up again.
    #[error("bad frame behind {at} bytes")]
    BadFrame { at: u64 },
    /// There was too little memory; the call did nothing.
    #[error("out of memory")]
    Alloc,
}

impl From<AllocError> for GateError {
    ghost from_gives = { λ _ e. e ≡ Alloc };

    fn from(_error: AllocError) -> GateError {
        GateError::Alloc
    }
}

impl<T: Drop> From<AllocFailed<T>> for GateError {
    ghost from_gives = { λ _ e. e ≡ Alloc };

    fn from(_error: AllocFailed<T>) -> GateError {
        GateError::Alloc
    }
}
