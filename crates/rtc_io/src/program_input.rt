//! The input of a program that reads all of it first.
ghost use Rattle.std.specs.Prelude.{◌≡◌, ◌≤◌, ◌^◌, ◌⊎◌, length, IfOk, OnOk, IfErr, IsErrOf, string_bytes};
ghost use Rattle.std.specs.Io.KnownBytes.{Appends, Consumes, IsAtEnd};
ghost use Rattle.rtc_io.specs.Faults.{Rose};
ghost use Rattle.rtc_io.specs.Saying.{BreaksOff};
ghost use Rattle.rtc_io.specs.Programs.{fault_line, refused_line, IsTooLong, IsDueUnread};

use crate::status::{OUT_OF_MEMORY, REFUSED, SOURCE_FAILED, TOO_LONG};
use crate::{INPUT_LIMIT, ReadError, Sink, Source, read_all, say};
use rtc_wire::Bytes;
use std::alloc::{AllocError, Global};

/// The whole input of a program, or the status to end with. If the source fails (4) or gives more than `INPUT_LIMIT`
/// bytes (7), a line says so: of the length it is `long`.
pub fn read_input<R: Source, W: Sink>(
    alloc: Global,
    long: &[u8],
    input: &mut R,
    output: &mut W,
) -> Result<Bytes, u8>
    ensures bytes { IfOk result (λ bytes. Consumes (R.left input.old) (R.left input.new) bytes) }
    ensures end { OnOk result (IsAtEnd (R.left input.new)) }
    ensures within { IfOk result (λ bytes. length bytes ≤ 2 ^ 20) }
    ensures silent { OnOk result (output.new ≡ output.old) }
    ensures read { IsErrOf result 4
        → Rose (R.faults input.old) (R.faults input.new) × Appends (W.written output.old) (W.written output.new) fault_line }
    ensures write { IsErrOf result 5
        → BreaksOff (IsDueUnread long.now (R.left input.old) (R.faults input.old) (R.faults input.new))
        (W.written output.old) (W.written output.new) (W.faults output.old) (W.faults output.new) }
    ensures memory { IsErrOf result 6 → output.new ≡ output.old }
    ensures long { IsErrOf result 7
        → IsTooLong (R.left input.old) × Appends (W.written output.old) (W.written output.new) long.now }
    ensures statuses { IfErr result (λ status. (status ≡ 4) ⊎ (status ≡ 5) ⊎ (status ≡ 6) ⊎ (status ≡ 7)) }
{
    match read_all(alloc, input, INPUT_LIMIT) {
        Ok(bytes) => Ok(bytes),
        Err(ReadError::Fault) => Err(say(output, b"read fault\n", SOURCE_FAILED)),
        Err(ReadError::TooLong) => Err(say(output, long, TOO_LONG)),
        Err(ReadError::Alloc) => Err(OUT_OF_MEMORY),
    }
}

fn refusal(alloc: Global, subject: &str, line: u32) -> Result<String, AllocError>
    ensures { IfOk result (λ text. string_bytes text ≡ refused_line subject.now line) }
{
    let mut text = String::from_str(alloc, subject)?;
    write!(text, " refused at line {line}\n")?;
    Ok(text)
}

/// Writes that the input is refused at a line, and returns the status; `subject` says what the input is, as "script".
pub fn refuse_input<W: Sink>(alloc: Global, subject: &str, line: u32, output: &mut W) -> u8
    ensures told { result ≡ 3 → Appends (W.written output.old) (W.written output.new) (refused_line subject.now line) }
    ensures write { result ≡ 5
        → BreaksOff (λ text. text ≡ refused_line subject.now line)
        (W.written output.old) (W.written output.new) (W.faults output.old) (W.faults output.new) }
    ensures memory { result ≡ 6 → output.new ≡ output.old }
    ensures statuses { (result ≡ 3) ⊎ (result ≡ 5) ⊎ (result ≡ 6) }
{
    match refusal(alloc, subject, line) {
        Ok(text) => say(output, text.as_bytes(), REFUSED),
        Err(_) => OUT_OF_MEMORY,
    }
}
