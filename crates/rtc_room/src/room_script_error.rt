//! Why bytes are no script.
ghost use Rattle.std.specs.Prelude.{◌≡◌};
ghost use Rattle.rtc_room.specs.declared.room_script_error.RoomScriptError.TheVariants.{Alloc};

use std::alloc::{AllocError, AllocFailed};
use thiserror::Error;

/// Why bytes are no script.
#[derive(Clone, Copy, Debug, PartialEq, Eq, Error)]
pub enum RoomScriptError {
    /// The number of the first refused line, counted from 1; `u32::MAX` if it is greater.
    #[error("script refused at line {0}")]
    Line(u32),
    /// There was too little memory.
    #[error("out of memory")]
    Alloc,
}

impl From<AllocError> for RoomScriptError {
    ghost from_gives = { λ _ e. e ≡ Alloc };

    fn from(_error: AllocError) -> RoomScriptError {
        RoomScriptError::Alloc
    }
}

impl<T: Drop> From<AllocFailed<T>> for RoomScriptError {
    ghost from_gives = { λ _ e. e ≡ Alloc };

    fn from(_error: AllocFailed<T>) -> RoomScriptError {
        RoomScriptError::Alloc
    }
}
