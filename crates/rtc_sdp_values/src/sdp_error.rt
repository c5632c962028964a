//! Why a session description is refused.
ghost use Rattle.std.specs.Prelude.{◌≡◌, Some};
ghost use Rattle.rtc_sdp_values.specs.declared.sdp_error.SdpError.TheVariants.{Alloc};
ghost use Rattle.rtc_sdp_values.specs.SdpErrorText as text;

use crate::Inconsistent;
use std::alloc::{AllocError, AllocFailed};
use std::error::Error;
use std::fmt;

/// Why a session description is refused. Nothing has changed; all but `Alloc` are faults of the description.
#[derive(Debug, PartialEq, Eq, Drop)]
pub enum SdpError {
    /// The number of the first bad line, from 1; `u32::MAX` if that is greater.
    Parse(u32),
    Inconsistent(Inconsistent),
    /// There was too little memory.
    Alloc,
}

impl fmt::Display for SdpError {
    ghost output = { λ error. Some (text.sdp_error_text error) };

    #[tactic(auto, unfolding(crate::specs::SdpErrorText::sdp_error_text))]
    fn fmt<W: fmt::Write>(&self, f: &mut fmt::Formatter<W>) -> fmt::Result {
        match self {
            SdpError::Parse(line) => write!(f, "SDP parse error at line {line}"),
            SdpError::Inconsistent(cause) => write!(f, "{cause}"),
            SdpError::Alloc => f.write_str("out of memory"),
        }
    }
}

impl Error for SdpError {}

impl From<AllocError> for SdpError {
    ghost from_gives = { λ _ e. e ≡ Alloc };

    fn from(_error: AllocError) -> SdpError {
        SdpError::Alloc
    }
}

impl<T: Drop> From<AllocFailed<T>> for SdpError {
    ghost from_gives = { λ _ e. e ≡ Alloc };

    fn from(_error: AllocFailed<T>) -> SdpError {
        SdpError::Alloc
    }
}
