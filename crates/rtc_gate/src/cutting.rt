//! Words of a line.
ghost use Rattle.std.specs.Prelude.{◌≡◌, IfOk, map};
ghost use Rattle.rtc_wire_text.specs.Words.{words};

use std::alloc::{AllocError, Global};

/// The words of a line.
pub fn cut_words<'a>(alloc: Global, line: &'a [u8]) -> Result<Vec<&'a [u8]>, AllocError>
    ensures { IfOk result (λ cut. map (λ word. word.now) cut.items ≡ words line.now) }
{
    line.split(|byte| *byte == b' ').collect(alloc)
}
