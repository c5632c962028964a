//! Rows that a description carries.
use crate::LineMedia;
use rtc_sdp_values::LineRow;

/// A row that an offer or an answer carries, with its media.
#[derive(Debug, PartialEq, Eq, Drop)]
pub struct ToldRow {
    pub row: LineRow,
    pub media: LineMedia,
}
