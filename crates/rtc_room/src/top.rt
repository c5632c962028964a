//! The top call.
ghost use Rattle.std.specs.Prelude.{◌≡◌, ◌≢◌, ◌<◌, ◌^◌, ◌⊎◌, true, false, map, string_bytes};
ghost use Rattle.std.specs.Io.KnownBytes.{Appends};
ghost use Rattle.rtc_io.specs.Faults.{Rose};
ghost use Rattle.rtc_io.specs.Saying.{BreaksOff};
ghost use Rattle.rtc_io.specs.Programs.{IsDue, IsTooLong, RefusesInput, fault_line, long_line};
ghost use Rattle.rtc_room_laws.specs.RoomSizes.{room_size};
ghost use Rattle.rtc_room.specs.Asking.{asks_to_run_room};
ghost use Rattle.rtc_room.specs.Answers.{IsRoomReport, RunsRoomScript, WritesReport, room_program};
ghost use Rattle.rtc_room.specs.Answers.{CompletesRoom};

use crate::{RoomScriptError, ask_to_run, read_script, write_room_report};
use rtc_io::{OUT_OF_MEMORY, Sink, Source, USAGE, read_input, refuse_input, say};
use rtc_room_hub::run_room;
use rtc_room_laws::RoomStep;
use std::alloc::Global;

// Takes steps in a room that is empty, and writes the report.
fn perform_steps<W: Sink>(alloc: Global, steps: &[RoomStep], output: &mut W) -> u8
    requires { room_size steps.now < 2 ^ 32 }
    ensures done { result ≡ 0 → WritesReport alloc steps.now (W.written output.old) (W.written output.new) }
    ensures write { result ≡ 5
        → BreaksOff (IsRoomReport alloc steps.now)
        (W.written output.old) (W.written output.new) (W.faults output.old) (W.faults output.new) }
    ensures memory { result ≡ 6 → output.new ≡ output.old }
    ensures statuses { (result ≡ 0) ⊎ (result ≡ 5) ⊎ (result ≡ 6) }
{
    let mut pairs = Vec::new(alloc);
    let Ok(replies) = run_room(alloc, steps, &mut pairs) else {
        return OUT_OF_MEMORY;
    };
    let Ok(text) = write_room_report(alloc, steps, replies.as_slice()) else {
        return OUT_OF_MEMORY;
    };
    say(output, text.as_slice(), 0)
}

/// Reads a script of a room from `input`, takes its steps, writes the report to `output`, and returns the status.
///
/// A fault of the sink (5) may replace any other status, and `OUT_OF_MEMORY` (6) any but 2.
pub fn room_main<R: Source, W: Sink>(
    alloc: Global,
    words: &[String],
    input: &mut R,
    output: &mut W,
) -> u8
    ensures done { result ≡ 0
        → RunsRoomScript alloc (R.left input.old) (R.left input.new) (W.written output.old) (W.written output.new) }
    ensures usage { result ≡ 2 → (asks_to_run_room (map (λ word. string_bytes word) words.now) ≡ false)
        × Appends (W.written output.old) (W.written output.new) (room_program alloc).usage }
    ensures refused { result ≡ 3
        → RefusesInput (room_program alloc) (R.left input.old) (R.left input.new) (W.written output.old) (W.written output.new) }
    ensures read { result ≡ 4
        → Rose (R.faults input.old) (R.faults input.new) × Appends (W.written output.old) (W.written output.new) fault_line }
    ensures write { let asked = asks_to_run_room (map (λ word. string_bytes word) words.now) in result ≡ 5 → BreaksOff
        (IsDue (room_program alloc) (asked ≡ false) (asked ≡ true)
        (R.left input.old) (R.left input.new) (R.faults input.old) (R.faults input.new))
        (W.written output.old) (W.written output.new) (W.faults output.old) (W.faults output.new) }
    ensures memory { result ≡ 6 → output.new ≡ output.old }
    ensures long { result ≡ 7
        → IsTooLong (R.left input.old) × Appends (W.written output.old) (W.written output.new) (long_line (room_program alloc).subject) }
    ensures unread { asks_to_run_room (map (λ word. string_bytes word) words.now) ≡ false → input.new ≡ input.old }
    ensures asked { asks_to_run_room (map (λ word. string_bytes word) words.now) ≡ false → (result ≡ 2) ⊎ (result ≡ 5) }
    ensures statuses { (result ≢ 1) × (result < 8) }
    ensures complete { asks_to_run_room (map (λ word. string_bytes word) words.now) ≡ true → CompletesRoom (R.left input.old)
        (R.faults input.old) (R.faults input.new) (W.faults output.old) (W.faults output.new) result }
{
    if !ask_to_run(words) {
        return say(output, b"usage: rtc_room run\n", USAGE);
    }
    let bytes = match read_input(alloc, b"script too long\n", input, output) {
        Ok(bytes) => bytes,
        Err(status) => return status,
    };
    match read_script(alloc, bytes.as_slice()) {
        Ok(steps) => perform_steps(alloc, steps.as_slice(), output),
        Err(RoomScriptError::Line(line)) => refuse_input(alloc, "script", line, output),
        Err(RoomScriptError::Alloc) => OUT_OF_MEMORY,
    }
}
