//! The phases of a peer's life.

/// The phase of a peer's life. It never goes back.
#[derive(Clone, Copy, Debug, PartialEq, Eq)]
pub enum Phase {
    Alive,
    /// It was asked to close, and what this takes is not yet done.
    Closing,
    /// It returns nothing any more.
    Closed,
}
