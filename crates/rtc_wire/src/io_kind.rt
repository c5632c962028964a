//! Kinds of input errors.

/// What kind of error input has.
#[derive(Clone, Copy, Debug, PartialEq, Eq)]
pub enum IoKind {
    InvalidData,
}
