//! The statuses with which the programs end, besides 0.

/// The words of the command line ask for nothing that the program does.
pub const USAGE: u8 = 2;
/// The input is refused at a line.
pub const REFUSED: u8 = 3;
/// The source failed.
pub const SOURCE_FAILED: u8 = 4;
/// The sink failed.
pub const SINK_FAILED: u8 = 5;
/// An allocation failed.
pub const OUT_OF_MEMORY: u8 = 6;
/// There were more than `INPUT_LIMIT` bytes.
pub const TOO_LONG: u8 = 7;
