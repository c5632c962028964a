//! Counts of a table.

/// How many rows, stopped rows and channels a table has.
#[derive(Clone, Copy)]
pub struct TableCounts {
    pub lines: usize,
    pub stopped: usize,
    pub channels: usize,
}
