//! Kinds of m-lines.
ghost use Rattle.std.specs.Prelude.{◌≡◌};
ghost use Rattle.rtc_sdp_values.specs.Sdp as spec;

use rtc_wire::TryCopy;
use std::alloc::AllocError;

/// The kind that an m-line names (RFC 8866, section 5.14).
#[derive(Clone, Copy, Debug, PartialEq, Eq)]
pub enum LineKind {
    Audio,
    Video,
    Application,
    Unknown,
}

impl LineKind {
    /// Whether the line is for data channels.
    pub fn is_application(self) -> bool
        ensures { result ≡ spec.is_application self }
    {
        match self {
            LineKind::Application => true,
            LineKind::Audio | LineKind::Video | LineKind::Unknown => false,
        }
    }
}

impl TryCopy for LineKind {
    fn copy(&self) -> Result<LineKind, AllocError> {
        Ok(*self)
    }
}
