//! The top call.
ghost use Rattle.std.specs.Prelude.{◌≡◌, ◌≢◌, ◌<◌, ◌^◌, ◌⊎◌, IfSome, length};
ghost use Rattle.std.specs.Io.KnownBytes.{Appends};
ghost use Rattle.rtc_io.specs.Faults.{Rose};
ghost use Rattle.rtc_io.specs.Saying.{BreaksOff};
ghost use Rattle.rtc_files.specs.Asking.{AskForSessions, bytes_of_words};
ghost use Rattle.rtc_files.specs.Sessions.{front_sent};
ghost use Rattle.rtc_files.specs.Answers.{
  WritesWhole,
  WritesFront,
  SendsWhole,
  SendsFront,
  IsFileDue,
  files_usage_line,
  files_fault_line,
  files_long_line,
};

use crate::{send_file, session_sizes};
use rtc_io::{INPUT_LIMIT, ReadError, Sink, Source, read_all, say};
use std::alloc::Global;

/// The status of a program that ran out of memory.
pub const OUT_OF_MEMORY: u8 = 6;

// Sends a file that was read, and writes what was received.
fn send_and_write<W: Sink>(alloc: Global, file: &[u8], sizes: &[u32], output: &mut W) -> u8
    ensures whole { result ≡ 0 → WritesWhole file.now sizes.now (W.written output.old) (W.written output.new) }
    ensures front { result ≡ 8 → WritesFront file.now sizes.now (W.written output.old) (W.written output.new) }
    ensures write { result ≡ 5
        → BreaksOff (λ text. text ≡ front_sent file.now sizes.now)
        (W.written output.old) (W.written output.new) (W.faults output.old) (W.faults output.new) }
    ensures memory { result ≡ 6 → output.new ≡ output.old }
    ensures statuses { (result ≡ 0) ⊎ (result ≡ 5) ⊎ (result ≡ 6) ⊎ (result ≡ 8) }
{
    let Ok(receiver) = send_file(alloc, "file", file, sizes) else {
        return OUT_OF_MEMORY;
    };
    if receiver.is_whole() {
        say(output, receiver.held(), 0)
    } else {
        say(output, receiver.held(), 8)
    }
}

/// Reads a file from `input`, sends it to a receiver in the sessions that the words ask for, and writes what was
/// received to `output`. Returns the status.
///
/// A fault of the sink (5) may replace any other status, and out of memory (6) any but 2.
pub fn file_main<R: Source, W: Sink>(
    alloc: Global,
    words: &[String],
    input: &mut R,
    output: &mut W,
) -> u8
    ensures whole { result ≡ 0 → SendsWhole (bytes_of_words words.now) (R.left input.old) (R.left input.new)
        (W.written output.old) (W.written output.new) }
    ensures usage { result ≡ 2 → (¬ (AskForSessions (bytes_of_words words.now)))
        × Appends (W.written output.old) (W.written output.new) files_usage_line }
    ensures read { result ≡ 4 → Rose (R.faults input.old) (R.faults input.new)
        × Appends (W.written output.old) (W.written output.new) files_fault_line }
    ensures write { result ≡ 5 → BreaksOff
        (IsFileDue (bytes_of_words words.now)
        (R.left input.old) (R.left input.new) (R.faults input.old) (R.faults input.new))
        (W.written output.old) (W.written output.new) (W.faults output.old) (W.faults output.new) }
    ensures memory { result ≡ 6 → output.new ≡ output.old }
    ensures long { result ≡ 7 → IfSome (R.left input.old) (λ file. 2 ^ 20 < length file)
        × Appends (W.written output.old) (W.written output.new) files_long_line }
    ensures front { result ≡ 8 → SendsFront (bytes_of_words words.now) (R.left input.old) (R.left input.new)
        (W.written output.old) (W.written output.new) }
    ensures unread { (¬ (AskForSessions (bytes_of_words words.now))) → input.new ≡ input.old }
    ensures asked { (¬ (AskForSessions (bytes_of_words words.now))) → (result ≡ 2) ⊎ (result ≡ 5) }
    ensures statuses { (result ≢ 1) × (result ≢ 3) × (result < 9) }
{
    let Ok(asked) = session_sizes(alloc, words) else {
        return OUT_OF_MEMORY;
    };
    let Some(sizes) = asked else {
        return say(output, b"usage: rtc_files run C C\n", 2);
    };
    let file = match read_all(alloc, input, INPUT_LIMIT) {
        Ok(file) => file,
        Err(ReadError::Fault) => return say(output, b"read fault\n", 4),
        Err(ReadError::TooLong) => return say(output, b"script too long\n", 7),
        Err(ReadError::Alloc) => return OUT_OF_MEMORY,
    };
    send_and_write(alloc, file.as_slice(), sizes.as_slice(), output)
}
