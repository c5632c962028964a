//! Replies in brief.
use std::alloc::{AllocError, Global};

// Whether a line of a reply is kept: m-lines, the group, header extensions, and what is of no description.
fn is_kept(line: &str) -> bool {
    line.starts_with("m=")
        || line.starts_with("a=group:")
        || line.starts_with("a=extmap:")
        || !line.contains("=")
}

/// A reply without most lines of its description.
pub fn abridge(alloc: Global, reply: &str) -> Result<String, AllocError> {
    let mut kept = String::new(alloc);
    for line in reply.lines() {
        if is_kept(line) {
            writeln!(kept, "{line}")?;
        }
    }
    Ok(kept)
}
