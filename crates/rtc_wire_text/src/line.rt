//! Lines of a text.
ghost use Rattle.std.specs.Prelude.{◌≡◌, ◌<◌, IfOk, length, map};
ghost use Rattle.rtc_wire_text.specs.Lines as spec;

use std::alloc::{AllocError, Global};

/// The lines of a text (RFC 8866, section 5), lent: each ends with LF or CRLF, and the end of the last may be missing.
pub fn lines<'a>(alloc: Global, text: &'a str) -> Result<Vec<&'a str>, AllocError>
    ensures { IfOk result (λ found. map (λ line. line.now) found.items ≡ spec.lines text.now) }
{
    text.lines().collect(alloc)
}

/// What is between line feeds, lent: the lines, and behind the last line feed one piece more, which may be empty.
pub fn pieces<'a>(alloc: Global, bytes: &'a [u8]) -> Result<Vec<&'a [u8]>, AllocError>
    ensures cut { IfOk result (λ found. map (λ piece. piece.now) found.items ≡ spec.pieces bytes.now) }
    ensures some { IfOk result (λ found. 0 < length found.items) }
{
    bytes.split(|byte| *byte == b'\n').collect(alloc)
}
