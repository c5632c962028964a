//! What is wrong with the new lines of an answer.
ghost use Rattle.std.specs.Prelude.{◌≡◌, Some};
ghost use Rattle.rtc_peer_rows.specs.WhyText as text;

use rtc_sdp_values::{LineKind, Mid};
use std::error::Error;
use std::fmt;

/// What is wrong with the new lines of an answer, which are to be those that its offer added.
#[derive(Clone, Copy, Debug, PartialEq, Eq)]
pub enum NewLine {
    /// There are more or fewer than the offer added.
    Count { expected: u32, got: u32 },
    NotMedia(Mid, LineKind),
    NotChannel(Mid, LineKind),
    NotOffered(Mid),
    /// Audio in place of video, or video in place of audio.
    OtherKind(Mid),
    OtherPlace(Mid),
}

#[tactic(auto, unfolding(crate::specs::WhyText::kind_name))]
fn kind_name(kind: LineKind) -> &'static str
    ensures { result.now ≡ text.kind_name kind }
{
    match kind {
        LineKind::Audio => "Audio",
        LineKind::Video => "Video",
        LineKind::Application => "Application",
        LineKind::Unknown => "Unknown",
    }
}

impl fmt::Display for NewLine {
    ghost output = { λ wrong. Some (text.new_line_text wrong) };

    #[tactic(auto, unfolding(crate::specs::WhyText::new_line_text))]
    fn fmt<W: fmt::Write>(&self, f: &mut fmt::Formatter<W>) -> fmt::Result {
        match self {
            NewLine::Count { expected, got } => {
                write!(
                    f,
                    "Differing m-line count in offer vs answer: {expected} != {got}"
                )
            }
            NewLine::NotMedia(mid, kind) => {
                let (mid, kind) = (mid.as_str(), kind_name(*kind));
                write!(
                    f,
                    "Answer m-line for mid ({mid}) is not of media type: {kind}"
                )
            }
            NewLine::NotChannel(mid, kind) => {
                let (mid, kind) = (mid.as_str(), kind_name(*kind));
                write!(
                    f,
                    "Answer m-line for mid ({mid}) is not a data channel: {kind}"
                )
            }
            NewLine::NotOffered(mid) => {
                let mid = mid.as_str();
                write!(f, "Mid in answer is not in offer: {mid}")
            }
            NewLine::OtherKind(mid) => {
                let mid = mid.as_str();
                write!(f, "Answer m-line for mid ({mid}) is of another kind")
            }
            NewLine::OtherPlace(mid) => {
                let mid = mid.as_str();
                write!(f, "Changed order for m-line with mid: {mid}")
            }
        }
    }
}

impl Error for NewLine {}
