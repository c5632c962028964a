//! Places of lines.

/// The place of a line of a session description; empty lines leave it unchanged.
///
/// First --`v=0`--> Second --`o=`--> Session --`m=`--> Line --`m=`--> Line
#[derive(Clone, Copy, Debug, PartialEq, Eq)]
pub enum Place {
    /// The `v=` line is expected.
    First,
    /// The `o=` line is expected.
    Second,
    /// In the session part.
    Session,
    /// In a line part.
    Line,
}
