//! What a text is explained as.
use rtc_wire::Text;

/// A session description, line by line, with what becomes of each.
#[derive(Drop)]
pub struct Explanation {
    /// A row for each line, up to the one that refuses the session description.
    pub rows: Text,
    /// Whether a line refuses it.
    pub is_refused: bool,
}
