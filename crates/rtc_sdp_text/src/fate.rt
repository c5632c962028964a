//! What becomes of lines.
use crate::Cause;

/// What becomes of a line of a session description.
#[derive(Clone, Copy)]
pub enum Fate {
    /// No attribute: a line of the frame.
    Frame,
    /// An attribute that counts.
    Kept,
    /// An attribute that is not known, or a group of another name than BUNDLE.
    UnknownName,
    /// An attribute that counts once, and another of its kind was first in its part.
    CameBefore,
    /// A known attribute whose value is malformed.
    NotOfItsForm,
    /// An attribute that does not count in this part.
    NotHere,
    /// The line that refuses the text.
    Refused(Cause),
}
