//! The levels of attributes.

/// The level at which an attribute counts (RFC 8866, section 5.13).
#[derive(Clone, Copy, Debug, PartialEq, Eq)]
pub enum Level {
    /// In front of the first `m=` line.
    SessionLevel,
    /// In a line part.
    MediaLevel,
    AnyLevel,
}
