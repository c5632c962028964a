//! Why a DTLS part refuses.
ghost use Rattle.std.specs.Prelude.{Some};
ghost use Rattle.rtc_parts.specs.DtlsErrorText as text;

use std::alloc::{AllocError, AllocFailed};
use std::error::Error;
use std::fmt;

/// Why a call of a DTLS part failed.
#[derive(Clone, Copy, Debug, PartialEq, Eq)]
pub enum DtlsError {
    /// The handshake is not finished: application data has to wait. Nothing changed.
    WouldBlock,
    /// The device failed. Its count of faults rose.
    Fault,
    Alloc,
}

impl fmt::Display for DtlsError {
    ghost output = { λ error. Some (text.dtls_error_text error) };

    #[tactic(auto, unfolding(crate::specs::DtlsErrorText::dtls_error_text))]
    fn fmt<W: fmt::Write>(&self, f: &mut fmt::Formatter<W>) -> fmt::Result {
        match self {
            DtlsError::WouldBlock => f.write_str("DTLS handshake pending"),
            DtlsError::Fault => f.write_str("DTLS error"),
            DtlsError::Alloc => f.write_str("out of memory"),
        }
    }
}

impl Error for DtlsError {}

impl From<AllocError> for DtlsError {
    ghost use Rattle.std.specs.Prelude.{◌≡◌};
    ghost use Rattle.rtc_parts.specs.declared.dtls_error.DtlsError.TheVariants.{Alloc};

    ghost from_gives = { λ _ e. e ≡ Alloc };

    fn from(_e: AllocError) -> DtlsError {
        DtlsError::Alloc
    }
}

impl<T: Drop> From<AllocFailed<T>> for DtlsError {
    ghost use Rattle.std.specs.Prelude.{◌≡◌};
    ghost use Rattle.rtc_parts.specs.declared.dtls_error.DtlsError.TheVariants.{Alloc};

    ghost from_gives = { λ _ e. e ≡ Alloc };

    fn from(_e: AllocFailed<T>) -> DtlsError {
        DtlsError::Alloc
    }
}
