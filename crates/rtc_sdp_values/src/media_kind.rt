//! Kinds of media.
ghost use Rattle.std.specs.Prelude.{◌≡◌};
ghost use Rattle.rtc_sdp_values.specs.MediaKind.{is_audio as IsAudio, is_video as IsVideo};

use rtc_wire::TryCopy;
use std::alloc::AllocError;

/// What a media line carries.
#[derive(Clone, Copy, Debug, PartialEq, Eq)]
pub enum MediaKind {
    Audio,
    Video,
}

impl MediaKind {
    pub fn is_audio(self) -> bool
        ensures { result ≡ IsAudio self }
    {
        match self {
            MediaKind::Audio => true,
            MediaKind::Video => false,
        }
    }

    pub fn is_video(self) -> bool
        ensures { result ≡ IsVideo self }
    {
        match self {
            MediaKind::Audio => false,
            MediaKind::Video => true,
        }
    }
}

impl TryCopy for MediaKind {
    fn copy(&self) -> Result<MediaKind, AllocError> {
        Ok(*self)
    }
}
