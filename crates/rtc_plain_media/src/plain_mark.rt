//! What a caller keeps at a stream or a line.

/// A number that is kept for the caller at a stream or at a line. Nothing else reads it.
#[derive(Clone, Copy, Debug, PartialEq, Eq)]
pub struct PlainMark {
    pub count: u64,
}
