//! Why a call on streams refuses.
ghost use Rattle.std.specs.Prelude.{Some};
ghost use Rattle.rtc_sctp_values.specs.SctpErrorText as text;

use crate::ProtoError;
use rtc_wire::DcepError;
use std::alloc::{AllocError, AllocFailed};
use std::error::Error;
use std::fmt;

/// Why a call on the streams of an association did nothing.
#[derive(Clone, Copy, Debug, PartialEq, Eq)]
pub enum SctpError {
    Proto(ProtoError),
    /// The association is not established or is closing, or the stream is not open.
    WriteBeforeEstablished,
    DcepOpenTooSmall,
    DcepIncorrectMessageType,
    DcepBadUtf8,
    /// The text of an INIT chunk is no base64 with padding.
    InvalidSnap,
    Alloc,
}

impl fmt::Display for SctpError {
    ghost output = { λ error. Some (text.sctp_error_text error) };

    #[tactic(auto, unfolding(crate::specs::SctpErrorText::sctp_error_text))]
    fn fmt<W: fmt::Write>(&self, f: &mut fmt::Formatter<W>) -> fmt::Result {
        match self {
            SctpError::Proto(cause) => write!(f, "{cause}"),
            SctpError::WriteBeforeEstablished => {
                f.write_str("Write on a stream before it was established")
            }
            SctpError::DcepOpenTooSmall => f.write_str("DCEP open message too small"),
            SctpError::DcepIncorrectMessageType => f.write_str("DCEP incorrect message type"),
            SctpError::DcepBadUtf8 => f.write_str("DCEP bad UTF-8 string"),
            SctpError::InvalidSnap => f.write_str("Invalid SNAP token"),
            SctpError::Alloc => f.write_str("out of memory"),
        }
    }
}

impl Error for SctpError {}

impl From<AllocError> for SctpError {
    ghost use Rattle.std.specs.Prelude.{◌≡◌};
    ghost use Rattle.rtc_sctp_values.specs.declared.sctp_error.SctpError.TheVariants.{Alloc};

    ghost from_gives = { λ _ e. e ≡ Alloc };

    fn from(_e: AllocError) -> SctpError {
        SctpError::Alloc
    }
}

impl<T: Drop> From<AllocFailed<T>> for SctpError {
    ghost use Rattle.std.specs.Prelude.{◌≡◌};
    ghost use Rattle.rtc_sctp_values.specs.declared.sctp_error.SctpError.TheVariants.{Alloc};

    ghost from_gives = { λ _ e. e ≡ Alloc };

    fn from(_e: AllocFailed<T>) -> SctpError {
        SctpError::Alloc
    }
}

impl From<DcepError> for SctpError {
    ghost use Rattle.std.specs.Prelude.{◌≡◌};
    ghost use Rattle.rtc_sctp_values.specs.SctpErrors.{sctp_error_of};

    ghost from_gives = { λ e made. made ≡ sctp_error_of e };

    fn from(e: DcepError) -> SctpError {
        match e {
            DcepError::DcepOpenTooSmall => SctpError::DcepOpenTooSmall,
            DcepError::DcepIncorrectMessageType => SctpError::DcepIncorrectMessageType,
            DcepError::DcepBadUtf8 => SctpError::DcepBadUtf8,
            DcepError::Alloc => SctpError::Alloc,
        }
    }
}
