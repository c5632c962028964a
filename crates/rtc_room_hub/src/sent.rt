//! What became of items.

/// What became of an item that was written to a line.
#[derive(Clone, Copy, Debug, PartialEq, Eq)]
pub enum Sent {
    /// It was taken.
    Taken,
    /// It was not taken, or the line is not open: it waits.
    Waits,
    /// The write was refused.
    Refused,
}

/// What became of items that were written to a line in turn.
#[derive(Clone, Copy, Debug, PartialEq, Eq)]
pub struct SentItems {
    /// So many were taken.
    pub taken: usize,
    /// Whether the next one was refused.
    pub is_refused: bool,
}
