//! The top call.
ghost use Rattle.std.specs.Prelude.{◌≡◌, ◌≢◌, ◌<◌, ◌⊎◌, None, map, string_bytes};
ghost use Rattle.std.specs.Io.KnownBytes.{Appends};
ghost use Rattle.rtc_io.specs.Faults.{Rose};
ghost use Rattle.rtc_io.specs.Saying.{BreaksOff};
ghost use Rattle.rtc_io.specs.Programs.{IsTooLong, fault_line, long_line};
ghost use Rattle.rtc_sdp_text.specs.Asking.{asked};
ghost use Rattle.rtc_sdp_text.specs.Answers.{IsDone, IsDueText, IsRefusedInput, text_program, usage};

use crate::answering::{explain_input, rewrite_input};
use crate::{Asked, asked_for};
use rtc_io::{Sink, Source, USAGE, say};
use std::alloc::Global;

/// Does what was asked for, if anything was, and returns the status.
fn perform<R: Source, W: Sink>(
    alloc: Global,
    asked: Option<Asked>,
    input: &mut R,
    output: &mut W,
) -> u8
    ensures done { result ≡ 0 → IsDone asked (R.left input.old) (R.left input.new) (W.written output.old) (W.written output.new) }
    ensures usage { result ≡ 2 → (asked ≡ None) × Appends (W.written output.old) (W.written output.new) usage }
    ensures refused { result ≡ 3
        → IsRefusedInput asked (R.left input.old) (R.left input.new) (W.written output.old) (W.written output.new) }
    ensures read { result ≡ 4
        → Rose (R.faults input.old) (R.faults input.new) × Appends (W.written output.old) (W.written output.new) fault_line }
    ensures write { result ≡ 5
        → BreaksOff (IsDueText asked (R.left input.old) (R.left input.new) (R.faults input.old) (R.faults input.new))
        (W.written output.old) (W.written output.new) (W.faults output.old) (W.faults output.new) }
    ensures memory { result ≡ 6 → output.new ≡ output.old }
    ensures long { result ≡ 7
        → IsTooLong (R.left input.old) × Appends (W.written output.old) (W.written output.new) (long_line text_program.subject) }
    ensures unread { asked ≡ None → input.new ≡ input.old }
    ensures asked { asked ≡ None → (result ≡ 2) ⊎ (result ≡ 5) }
    ensures statuses { (result ≢ 1) × (result < 8) }
{
    match asked {
        None => say(
            output,
            b"usage: rtc_sdp_text offer | rtc_sdp_text answer | rtc_sdp_text explain\n",
            USAGE,
        ),
        Some(Asked::Rewrite(kind)) => rewrite_input(alloc, kind, input, output),
        Some(Asked::Explain) => explain_input(alloc, input, output),
    }
}

/// Reads a session description from `input`. Writes to `output` what it is read as, or what becomes of each of its
/// lines, and returns the status.
///
/// A fault of the sink (5) may replace any other status, and `OUT_OF_MEMORY` (6) any but 2.
pub fn text_main<R: Source, W: Sink>(
    alloc: Global,
    words: &[String],
    input: &mut R,
    output: &mut W,
) -> u8
    ensures done { let kind = asked (map (λ word. string_bytes word) words.now) in result ≡ 0
        → IsDone kind (R.left input.old) (R.left input.new) (W.written output.old) (W.written output.new) }
    ensures usage { result ≡ 2 → (asked (map (λ word. string_bytes word) words.now) ≡ None)
        × Appends (W.written output.old) (W.written output.new) usage }
    ensures refused { let kind = asked (map (λ word. string_bytes word) words.now) in result ≡ 3
        → IsRefusedInput kind (R.left input.old) (R.left input.new) (W.written output.old) (W.written output.new) }
    ensures read { result ≡ 4
        → Rose (R.faults input.old) (R.faults input.new) × Appends (W.written output.old) (W.written output.new) fault_line }
    ensures write { let kind = asked (map (λ word. string_bytes word) words.now) in result ≡ 5
        → BreaksOff (IsDueText kind (R.left input.old) (R.left input.new) (R.faults input.old) (R.faults input.new))
        (W.written output.old) (W.written output.new) (W.faults output.old) (W.faults output.new) }
    ensures memory { result ≡ 6 → output.new ≡ output.old }
    ensures long { result ≡ 7
        → IsTooLong (R.left input.old) × Appends (W.written output.old) (W.written output.new) (long_line text_program.subject) }
    ensures unread { asked (map (λ word. string_bytes word) words.now) ≡ None → input.new ≡ input.old }
    ensures asked { asked (map (λ word. string_bytes word) words.now) ≡ None → (result ≡ 2) ⊎ (result ≡ 5) }
    ensures statuses { (result ≢ 1) × (result < 8) }
{
    let asked = asked_for(words);
    perform(alloc, asked, input, output)
}
