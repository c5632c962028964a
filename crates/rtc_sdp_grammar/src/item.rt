//! What lines say.
use crate::{Attribute, Level, MediaHead, Strict};

/// What one line of a session description says by itself (RFC 8866, section 5).
#[derive(Debug, Drop)]
pub enum Item {
    /// Nothing: the line is empty.
    Blank,
    /// Nothing: the line has no form, and is refused at every place.
    Bad,
    /// An `m=` line that has not its form: it is refused at every place, and begins a line part like any other.
    BadMedia,
    /// Nothing that counts here.
    Skipped,
    /// `v=0`.
    Version,
    /// The number of the session, of an `o=` line.
    Origin(u64),
    /// What an `m=` line says.
    Media(MediaHead),
    /// What an `a=` line says, if it counts.
    Says(Level, Attribute),
    /// A malformed `a=` line, which refuses the text if it counts.
    Malformed(Level, Strict),
}
