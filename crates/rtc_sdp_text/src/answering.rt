//! The output for an input.
ghost use Rattle.std.specs.Prelude.{◌≡◌, ◌≢◌, ◌<◌, true, false, Some};
ghost use Rattle.std.specs.Io.KnownBytes.{Appends};
ghost use Rattle.rtc_io.specs.Faults.{Rose};
ghost use Rattle.rtc_io.specs.Saying.{BreaksOff};
ghost use Rattle.rtc_io.specs.Programs.{IsTooLong, RefusesInput, fault_line, long_line};
ghost use Rattle.rtc_sdp_text.specs.Answers.{IsDueText, WritesRows, WritesSdp, text_program};
ghost use Rattle.rtc_sdp_text.specs.declared.asking.Asked.TheVariants.{Rewrite, Explain};

use crate::{SdpKind, TextError, explain, rewrite};
use rtc_io::{OUT_OF_MEMORY, REFUSED, Sink, Source, read_input, refuse_input, say};
use std::alloc::Global;

/// Reads a session description, and writes it again.
pub(crate) fn rewrite_input<R: Source, W: Sink>(
    alloc: Global,
    kind: SdpKind,
    input: &mut R,
    output: &mut W,
) -> u8
    ensures done { result ≡ 0 → WritesSdp (R.left input.old) (R.left input.new) (W.written output.old) (W.written output.new) }
    ensures refused { result ≡ 3
        → RefusesInput text_program (R.left input.old) (R.left input.new) (W.written output.old) (W.written output.new) }
    ensures read { result ≡ 4
        → Rose (R.faults input.old) (R.faults input.new) × Appends (W.written output.old) (W.written output.new) fault_line }
    ensures write { result ≡ 5 → BreaksOff
        (IsDueText (Some (Rewrite kind)) (R.left input.old) (R.left input.new) (R.faults input.old) (R.faults input.new))
        (W.written output.old) (W.written output.new) (W.faults output.old) (W.faults output.new) }
    ensures memory { result ≡ 6 → output.new ≡ output.old }
    ensures long { result ≡ 7
        → IsTooLong (R.left input.old) × Appends (W.written output.old) (W.written output.new) (long_line text_program.subject) }
    ensures statuses { (result ≢ 1) × (result ≢ 2) × (result < 8) }
{
    let bytes = match read_input(alloc, b"text too long\n", input, output) {
        Ok(bytes) => bytes,
        Err(status) => return status,
    };
    match rewrite(alloc, kind, bytes.as_slice()) {
        Ok(text) => say(output, text.as_str().as_bytes(), 0),
        Err(TextError::Line(line)) => refuse_input(alloc, "text", line, output),
        Err(TextError::Alloc) => OUT_OF_MEMORY,
    }
}

/// Reads a session description, and writes what becomes of each of its lines.
pub(crate) fn explain_input<R: Source, W: Sink>(alloc: Global, input: &mut R, output: &mut W) -> u8
    ensures done { result ≡ 0
        → WritesRows false (R.left input.old) (R.left input.new) (W.written output.old) (W.written output.new) }
    ensures refused { result ≡ 3
        → WritesRows true (R.left input.old) (R.left input.new) (W.written output.old) (W.written output.new) }
    ensures read { result ≡ 4
        → Rose (R.faults input.old) (R.faults input.new) × Appends (W.written output.old) (W.written output.new) fault_line }
    ensures write { result ≡ 5 → BreaksOff
        (IsDueText (Some Explain) (R.left input.old) (R.left input.new) (R.faults input.old) (R.faults input.new))
        (W.written output.old) (W.written output.new) (W.faults output.old) (W.faults output.new) }
    ensures memory { result ≡ 6 → output.new ≡ output.old }
    ensures long { result ≡ 7
        → IsTooLong (R.left input.old) × Appends (W.written output.old) (W.written output.new) (long_line text_program.subject) }
    ensures statuses { (result ≢ 1) × (result ≢ 2) × (result < 8) }
{
    let bytes = match read_input(alloc, b"text too long\n", input, output) {
        Ok(bytes) => bytes,
        Err(status) => return status,
    };
    let Ok(explained) = explain(alloc, bytes.as_slice()) else {
        return OUT_OF_MEMORY;
    };
    let rows = explained.rows.as_str().as_bytes();
    if explained.is_refused {
        say(output, rows, REFUSED)
    } else {
        say(output, rows, 0)
    }
}
