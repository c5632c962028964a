//! Why a channel is refused.
use std::alloc::{AllocError, AllocFailed};
use thiserror::Error;

/// Why no channel is made of a config.
#[derive(Clone, Copy, Debug, PartialEq, Eq, Error)]
pub enum ChannelError {
    /// A label or protocol of more than 65535 bytes, a stream that another channel claims, or no number is left.
    #[error("channel config refused")]
    BadChannel,
    #[error("out of memory")]
    Alloc,
}

impl From<AllocError> for ChannelError {
    ghost use Rattle.std.specs.Prelude.{◌≡◌};
    ghost use Rattle.rtc_channels.specs.declared.channel_error.ChannelError.TheVariants.{Alloc};

    ghost from_gives = { λ _ e. e ≡ Alloc };

    fn from(_error: AllocError) -> ChannelError {
        ChannelError::Alloc
    }
}

impl<T: Drop> From<AllocFailed<T>> for ChannelError {
    ghost use Rattle.std.specs.Prelude.{◌≡◌};
    ghost use Rattle.rtc_channels.specs.declared.channel_error.ChannelError.TheVariants.{Alloc};

    ghost from_gives = { λ _ e. e ≡ Alloc };

    fn from(_error: AllocFailed<T>) -> ChannelError {
        ChannelError::Alloc
    }
}
