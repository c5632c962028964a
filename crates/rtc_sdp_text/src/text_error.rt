//! Why bytes are no session description.
ghost use Rattle.std.specs.Prelude.{◌≡◌};
ghost use Rattle.rtc_sdp_text.specs.declared.text_error.TextError.TheVariants.{Alloc};

use std::alloc::AllocError;
use thiserror::Error;

/// Why bytes are no session description.
#[derive(Clone, Copy, Debug, PartialEq, Eq, Error)]
pub enum TextError {
    /// The number of the first refused line, from 1; `u32::MAX` if that is greater.
    #[error("text refused at line {0}")]
    Line(u32),
    #[error("out of memory")]
    Alloc,
}

impl From<AllocError> for TextError {
    ghost from_gives = { λ _ e. e ≡ Alloc };

    fn from(_error: AllocError) -> TextError {
        TextError::Alloc
    }
}
