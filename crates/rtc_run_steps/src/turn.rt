//! Turns of a drain.
use rtc_peer::RtcError;

/// What one poll of a drain met.
#[derive(Drop)]
pub enum Turn {
    /// An output that is followed by another.
    More,
    /// A timeout.
    Over,
    Refused(RtcError),
}
