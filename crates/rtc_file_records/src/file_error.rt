//! Why a message of a file is refused.
ghost use Rattle.std.specs.Prelude.{◌≡◌};
ghost use Rattle.rtc_file_records.specs.declared.file_error.FileError.TheVariants.{Alloc};

use std::alloc::AllocError;
use thiserror::Error;

/// Why a receiver refuses a message. The sender is at fault, but for `Alloc`; the receiver is as it was.
#[derive(Clone, Copy, Debug, PartialEq, Eq, Error)]
pub enum FileError {
    /// The bytes are no record.
    #[error("not a record of a file")]
    BadRecord,
    /// The record is not expected now.
    #[error("record out of order")]
    Order,
    /// The name or the total is not that of the first session.
    #[error("record of another file")]
    OtherFile,
    /// A piece does not begin behind the bytes that are held.
    #[error("{held} bytes held, piece at offset {got}")]
    Gap { held: u64, got: u64 },
    /// A piece passes the total.
    #[error("{would} bytes of a file of {total}")]
    TooMuch { total: u64, would: u64 },
    /// The file ends before all of it was received.
    #[error("file of {total} bytes ends at {held}")]
    Short { total: u64, held: u64 },
    /// The SHA-256 of the bytes that are held, `kept`, is not the received one.
    #[error("digest differs")]
    Mismatch { kept: [u8; 32], got: [u8; 32] },
    /// There was too little memory.
    #[error("out of memory")]
    Alloc,
}

impl From<AllocError> for FileError {
    ghost from_gives = { λ _ e. e ≡ Alloc };

    fn from(_error: AllocError) -> FileError {
        FileError::Alloc
    }
}
