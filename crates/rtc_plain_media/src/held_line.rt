//! Lines as the part holds them.
use crate::PlainMark;
use rtc_parts::MediaUpdate;

/// A line as the last commit left it, and the mark of its writer.
#[derive(Drop)]
pub struct HeldLine {
    pub update: MediaUpdate,
    pub mark: PlainMark,
}
