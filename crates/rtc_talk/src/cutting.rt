//! Lines that are cut in two.

/// What stands before the first of these letters, and what behind it; all and nothing if there is none.
pub fn cut(text: &str, at: char) -> (&str, &str) {
    match text.split_once(at) {
        Some(parts) => parts,
        None => (text, ""),
    }
}
