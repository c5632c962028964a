//! Lines of texts.
use rtc_wire_text::lines;
use std::alloc::{AllocError, Global};

// Whether a line is the wanted one, or is that with a space behind it and more.
fn begins(line: &str, wanted: &str) -> bool {
    if line == wanted {
        return true;
    }
    match line.split_once(' ') {
        Some((head, _)) => head == wanted,
        None => false,
    }
}

/// Whether so many lines of a text are the wanted one, or begin with it and a space behind it.
pub fn has_lines(
    alloc: Global,
    text: &str,
    wanted: &str,
    count: usize,
) -> Result<bool, AllocError> {
    let mut seen = 0usize;
    let found = lines(alloc, text)?;
    for line in found.as_slice() {
        if begins(*line, wanted) {
            seen = seen.saturating_add(1);
        }
    }
    Ok(seen == count)
}
