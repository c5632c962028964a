//! Ends of polls.
use rtc_peer_core::RtcError;

/// What ended the polls of a step.
#[derive(Debug, PartialEq, Eq, Drop)]
pub enum PollEnd {
    /// The last output that is shown.
    Ended,
    /// An error that the peer returned.
    Refused(RtcError),
    /// There was too little memory to poll once more; the peer was not polled again.
    NoRoom,
}
