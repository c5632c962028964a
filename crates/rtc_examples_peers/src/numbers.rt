//! Numbers in the lines that name examples.

/// The number that a word is; 0 if it is none.
pub fn number(word: Option<&str>) -> u32 {
    match word {
        Some(word) => word.parse::<u32>().unwrap_or(0),
        None => 0,
    }
}
