//! Answers whose rejected lines name the formats that were offered.
ghost use Rattle.std.specs.Prelude.{◌≡◌, IfOk, drop as DropFirst};
ghost use Rattle.rtc_lines.specs.OfferedFormats as spec;

use crate::rejecting::is_none;
use rtc_sdp_values::{MediaLine, Sdp};
use rtc_wire::{Seq, TryCopy};
use std::alloc::AllocError;

fn lacks_formats(line: &MediaLine) -> bool
    ensures { result ≡ spec.lacks_formats line.now }
{
    line.disabled && is_none(line.payloads.as_slice())
}

// The line at a place of the offer is the first of those that are left, if any is.
fn copy_line(line: &MediaLine, offered: &[MediaLine]) -> Result<MediaLine, AllocError>
    ensures { IfOk result (λ made. made ≡ spec.line_with_formats line.now (spec.first_formats offered.now)) }
{
    let mut made = line.copy()?;
    if !lacks_formats(line) {
        return Ok(made);
    }
    match offered {
        [] => made.payloads.clear(),
        [first, ..] => made.payloads = first.payloads.copy()?,
    }
    Ok(made)
}

fn behind_first(lines: &[MediaLine]) -> &[MediaLine]
    ensures { result.now ≡ DropFirst 1 lines.now }
{
    match lines {
        [] => lines,
        [_, rest @ ..] => rest,
    }
}

fn copy_lines(lines: &Seq<MediaLine>, offered: &[MediaLine]) -> Result<Seq<MediaLine>, AllocError>
    ensures { IfOk result (λ made. made ≡ spec.lines_with_offered lines.now offered.now) }
{
    let nothing = lines.empty_string();
    let mut made = Seq::empty(*nothing.allocator());
    let mut rest = offered;
    for line in lines.as_slice() {
        let copied = copy_line(line, rest)?;
        made.push(copied)?;
        rest = behind_first(rest);
    }
    Ok(made)
}

/// The answer, with the formats of the offered line on each rejected line that has none.
pub(crate) fn with_offered_formats(answer: &Sdp, offer: &Sdp) -> Result<Sdp, AllocError>
    ensures { IfOk result (λ made. made ≡ spec.answer_with_offered answer.now offer.now) }
{
    let lines = copy_lines(&answer.lines, offer.lines.as_slice())?;
    let groups = answer.groups.copy()?;
    let creds = answer.creds.copy()?;
    let fingerprint = answer.fingerprint.copy()?;
    Ok(Sdp {
        id: answer.id,
        groups,
        ice_lite: answer.ice_lite,
        creds,
        fingerprint,
        setup: answer.setup,
        lines,
    })
}
