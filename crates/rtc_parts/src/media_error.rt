//! Why media fails.
ghost use Rattle.std.specs.Prelude.{◌≡◌, Some};
ghost use Rattle.rtc_parts.specs.declared.media_error.MediaError.TheVariants.{Alloc};
ghost use Rattle.rtc_parts.specs.MediaErrorText as text;

use rtc_sdp_values::{Direction, Mid, Pt, Rid};
use std::alloc::{AllocError, AllocFailed};
use std::error::Error;
use std::fmt;

/// Why a media part fails. Each but `Alloc` is a fault of the part, and its count of faults rose.
#[derive(Debug, PartialEq, Eq, Drop)]
pub enum MediaError {
    Rtp,
    /// A packet was not read or not made.
    Packet(Mid, Pt),
    UnknownPt(Pt),
    UnknownRid(Rid),
    NoSenderSource,
    ResendRequiresRtxPt,
    NotSendingDirection(Direction),
    NotReceivingDirection,
    NoReceiverSource(Option<Rid>),
    FeedbackNotEnabled,
    WriteWithoutPoll,
    /// There was too little memory.
    Alloc,
}

impl fmt::Display for MediaError {
    ghost output = { λ error. Some (text.media_error_text error) };

    #[tactic(auto, unfolding(crate::specs::MediaErrorText::media_error_text))]
    fn fmt<W: fmt::Write>(&self, f: &mut fmt::Formatter<W>) -> fmt::Result {
        match self {
            MediaError::UnknownPt(pt) => {
                let number = pt.0;
                write!(f, "PT is unknown {number}")
            }
            MediaError::UnknownRid(rid) => {
                let rid = rid.as_str();
                write!(f, "RID is unknown {rid}")
            }
            MediaError::NoSenderSource => f.write_str("No sender source"),
            MediaError::NotReceivingDirection => f.write_str("Direction does not allow receiving"),
            MediaError::Alloc => f.write_str("out of memory"),
            MediaError::Rtp
            | MediaError::Packet(_, _)
            | MediaError::ResendRequiresRtxPt
            | MediaError::NotSendingDirection(_)
            | MediaError::NoReceiverSource(_)
            | MediaError::FeedbackNotEnabled
            | MediaError::WriteWithoutPoll => f.write_str("media error"),
        }
    }
}

impl Error for MediaError {}

impl From<AllocError> for MediaError {
    ghost from_gives = { λ _ e. e ≡ Alloc };

    fn from(_error: AllocError) -> MediaError {
        MediaError::Alloc
    }
}

impl<T: Drop> From<AllocFailed<T>> for MediaError {
    ghost from_gives = { λ _ e. e ≡ Alloc };

    fn from(_error: AllocFailed<T>) -> MediaError {
        MediaError::Alloc
    }
}
