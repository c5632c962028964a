//! Scripts that are read and performed.
ghost use Rattle.std.specs.Prelude.{◌≡◌, ◌≢◌, ◌<◌, ◌⊎◌, true, false};
ghost use Rattle.rtc_io.specs.Saying.{BreaksOff};
ghost use Rattle.rtc_io.specs.Programs.{RefusesInput};
ghost use Rattle.rtc_pair.specs.Answers.{script_program, RunsScript, CompletesRun, IsDueOfRun, TellsFault, TellsLength};

use crate::performing::perform_script;
use rtc_io::{OUT_OF_MEMORY, Sink, Source, read_input, refuse_input};
use rtc_run::PlainPair;
use rtc_script::{ScriptError, read_script};
use std::alloc::Global;

/// Reads a script from `input`, performs it, writes its report to `output`, and returns the status.
pub fn run_main<R: Source, W: Sink>(
    alloc: Global,
    input: &mut R,
    output: &mut W,
    last: &mut Option<PlainPair>,
) -> u8
    ensures done { result ≡ 0
        → RunsScript alloc false (R.left input.old) (R.left input.new) (W.written output.old) (W.written output.new) last.new }
    ensures refused { result ≡ 3
        → RefusesInput (script_program alloc) (R.left input.old) (R.left input.new) (W.written output.old) (W.written output.new) }
    ensures read { result ≡ 4 → TellsFault (R.faults input.old) (R.faults input.new) (W.written output.old) (W.written output.new) }
    ensures write { result ≡ 5 → BreaksOff
        (IsDueOfRun alloc (R.left input.old) (R.left input.new) (R.faults input.old) (R.faults input.new))
        (W.written output.old) (W.written output.new) (W.faults output.old) (W.faults output.new) }
    ensures memory { result ≡ 6 → RunsScript alloc true (R.left input.old) (R.left input.new) (W.written output.old)
        (W.written output.new) last.new ⊎ ((output.new ≡ output.old) × (last.new ≡ last.old)) }
    ensures long { result ≡ 7 → TellsLength alloc (R.left input.old) (W.written output.old) (W.written output.new) }
    ensures kept { result ≢ 0 → result ≢ 6 → last.new ≡ last.old }
    ensures statuses { (result ≢ 1) × (result ≢ 2) × (result < 8) }
    ensures complete { CompletesRun (R.left input.old)
        (R.faults input.old) (R.faults input.new) (W.faults output.old) (W.faults output.new) result }
{
    let bytes = match read_input(alloc, b"script too long\n", input, output) {
        Ok(bytes) => bytes,
        Err(status) => return status,
    };
    match read_script(alloc, bytes.as_slice()) {
        Ok(script) => perform_script(alloc, &script, output, last),
        Err(ScriptError::Line(line)) => refuse_input(alloc, "script", line, output),
        Err(ScriptError::Alloc) => OUT_OF_MEMORY,
    }
}
