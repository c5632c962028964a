//! Texts cut at a byte.
ghost use Rattle.std.specs.Prelude.{◌≡◌, ◌<◌, IfOk, length, map};
ghost use Rattle.rtc_wire_text.specs.Lines.{pieces};
ghost use Rattle.rtc_wire_text.specs.Words.{parts, words};

use std::alloc::{AllocError, Global};

/// The lines of a text, and what is behind its last line feed.
pub fn cut_lines<'a>(alloc: Global, text: &'a [u8]) -> Result<Vec<&'a [u8]>, AllocError>
    ensures pieces { IfOk result (λ cut. map (λ piece. piece.now) cut.items ≡ pieces text.now) }
    ensures some { IfOk result (λ cut. 0 < length cut.items) }
{
    text.split(|byte| *byte == b'\n').collect(alloc)
}

/// The words of a line.
pub fn cut_words<'a>(alloc: Global, line: &'a [u8]) -> Result<Vec<&'a [u8]>, AllocError>
    ensures { IfOk result (λ cut. map (λ word. word.now) cut.items ≡ words line.now) }
{
    line.split(|byte| *byte == b' ').collect(alloc)
}

/// The parts of a word between its colons.
pub fn cut_parts<'a>(alloc: Global, word: &'a [u8]) -> Result<Vec<&'a [u8]>, AllocError>
    ensures { IfOk result (λ cut. map (λ part. part.now) cut.items ≡ parts 58 word.now) }
{
    word.split(|byte| *byte == b':').collect(alloc)
}
