//! What a demo reports.

/// The numbers that a demo reports.
#[derive(Clone, Copy, Debug, PartialEq, Eq)]
pub struct DemoCounts {
    /// Rounds that were asked for.
    pub rounds: u32,
    /// Answers that were accepted.
    pub finished: usize,
    /// Rows of the left side.
    pub lines: usize,
    /// Rows of the left side that were stopped.
    pub stopped: usize,
    /// Channels of both sides.
    pub channels: usize,
}
