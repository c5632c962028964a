//! The progress of this end's close of a stream.

/// The progress of this end's close of a stream: not closed, the close is queued, the other end acknowledged it.
#[derive(Clone, Copy, Debug, PartialEq, Eq)]
pub enum CloseState {
    Unclosed,
    Queued,
    Acknowledged,
}
