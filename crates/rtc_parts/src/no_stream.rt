//! Why no stream is lent.
ghost use Rattle.std.specs.Prelude.{◌≡◌};
ghost use Rattle.rtc_parts.specs.declared.no_stream.NoStream.TheVariants.{Alloc};

use std::alloc::{AllocError, AllocFailed};

/// Why a media part lends no stream, and is as it was.
#[derive(Clone, Copy, Debug, PartialEq, Eq)]
pub enum NoStream {
    /// It has none for these arguments.
    Declined,
    /// There was too little memory for it.
    Alloc,
}

impl From<AllocError> for NoStream {
    ghost from_gives = { λ _ made. made ≡ Alloc };

    fn from(_lacking: AllocError) -> NoStream {
        NoStream::Alloc
    }
}

impl<T: Drop> From<AllocFailed<T>> for NoStream {
    ghost from_gives = { λ _ made. made ≡ Alloc };

    fn from(_lacking: AllocFailed<T>) -> NoStream {
        NoStream::Alloc
    }
}
