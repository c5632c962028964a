//! Parts of a text round a byte, and words parted by single spaces.
ghost use Rattle.std.specs.Prelude.{◌≡◌, ◌<◌, IfOk, map};
ghost use Rattle.rtc_wire_text.specs.Words as spec;

use std::alloc::{AllocError, Global};

// How many parts a text has, so that room for them is asked for once.
fn count_parts(text: &str, at: char) -> usize {
    let mut count = 1usize;
    for byte in text.as_bytes() {
        if char::from(*byte) == at {
            count = count.saturating_add(1);
        }
    }
    count
}

/// The parts round each `at`, an ASCII character. Two of it in a row have an empty part between them.
pub fn parts<'a>(alloc: Global, text: &'a str, at: char) -> Result<Vec<&'a str>, AllocError>
    requires { at < 128 }
    ensures { IfOk result (λ found. map (λ part. part.now) found.items ≡ spec.parts at text.now) }
{
    let mut found = Vec::with_capacity(alloc, count_parts(text, at))?;
    match found.extend(text.split(at)) {
        Ok(()) => Ok(found),
        Err(error) => Err(error),
    }
}

/// The words that single spaces part. Two spaces in a row have an empty word between them.
pub fn words<'a>(alloc: Global, text: &'a str) -> Result<Vec<&'a str>, AllocError>
    ensures { IfOk result (λ found. map (λ word. word.now) found.items ≡ spec.words text.now) }
{
    parts(alloc, text, ' ')
}
