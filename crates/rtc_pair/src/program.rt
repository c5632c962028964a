//! The top call.
ghost use Rattle.std.specs.Prelude.{◌≡◌, ◌≢◌, ◌<◌, ◌⊎◌, true, false, map, string_bytes};
ghost use Rattle.std.specs.Io.KnownBytes.{Appends};
ghost use Rattle.rtc_io.specs.Saying.{BreaksOff};
ghost use Rattle.rtc_io.specs.Programs.{RefusesInput};
ghost use Rattle.rtc_demo.specs.DemoWords.{AskForDemo};
ghost use Rattle.rtc_pair.specs.Answers.{run_words, script_program, RunsScript, TellsFault, TellsLength, CompletesRun};
ghost use Rattle.rtc_pair.specs.Words.{AskForNothing};
ghost use Rattle.rtc_pair.specs.Demo.{RunsDemo, IsTextDue};

use crate::asking::ask_for_run;
use crate::demo::perform_demo;
use crate::top::run_main;
use rtc_demo::read_demo;
use rtc_io::{Sink, Source, USAGE, say};
use rtc_run::PlainPair;
use std::alloc::Global;

/// Does what the words ask for, and returns the status. `run` reads a script from `input`, performs it, and writes its
/// report to `output`. `demo` performs the demo of a number of rounds and a seed, and writes its counts.
///
/// With status 0, and with 6 if a report was written, `last` has the pair on which the steps were performed; else it is
/// unchanged. A fault of the sink (5) may replace any other status, and `OUT_OF_MEMORY` (6) any but 2.
pub fn pair_main<R: Source, W: Sink>(
    alloc: Global,
    words: &[String],
    input: &mut R,
    output: &mut W,
    last: &mut Option<PlainPair>,
) -> u8
    ensures done { let words = map (λ word. string_bytes word) words.now in result ≡ 0
        → ((words ≡ run_words)
        × RunsScript alloc false (R.left input.old) (R.left input.new) (W.written output.old) (W.written output.new) last.new)
        ⊎ RunsDemo alloc words (W.written output.old) (W.written output.new) last.new }
    ensures usage { result ≡ 2 → AskForNothing (map (λ word. string_bytes word) words.now)
        × Appends (W.written output.old) (W.written output.new) (script_program alloc).usage }
    ensures refused { result ≡ 3
        → RefusesInput (script_program alloc) (R.left input.old) (R.left input.new) (W.written output.old) (W.written output.new) }
    ensures read { result ≡ 4 → TellsFault (R.faults input.old) (R.faults input.new) (W.written output.old) (W.written output.new) }
    ensures write { result ≡ 5 → BreaksOff (IsTextDue alloc (map (λ word. string_bytes word) words.now)
        (R.left input.old) (R.left input.new) (R.faults input.old) (R.faults input.new))
        (W.written output.old) (W.written output.new) (W.faults output.old) (W.faults output.new) }
    ensures memory { result ≡ 6 → ((map (λ word. string_bytes word) words.now ≡ run_words)
        × RunsScript alloc true (R.left input.old) (R.left input.new) (W.written output.old) (W.written output.new) last.new)
        ⊎ ((output.new ≡ output.old) × (last.new ≡ last.old)) }
    ensures long { result ≡ 7 → TellsLength alloc (R.left input.old) (W.written output.old) (W.written output.new) }
    ensures unread { (map (λ word. string_bytes word) words.now ≢ run_words) → input.new ≡ input.old }
    ensures asked { AskForNothing (map (λ word. string_bytes word) words.now) → (result ≡ 2) ⊎ (result ≡ 5) }
    ensures demo { AskForDemo (map (λ word. string_bytes word) words.now) → (result ≡ 0) ⊎ (result ≡ 5) ⊎ (result ≡ 6) }
    ensures kept { result ≢ 0 → result ≢ 6 → last.new ≡ last.old }
    ensures statuses { (result ≢ 1) × (result < 8) }
    ensures complete { (map (λ word. string_bytes word) words.now ≡ run_words) → CompletesRun (R.left input.old)
        (R.faults input.old) (R.faults input.new) (W.faults output.old) (W.faults output.new) result }
{
    if ask_for_run(words) {
        return run_main(alloc, input, output, last);
    }
    match read_demo(words) {
        Some(asked) => perform_demo(alloc, asked.0, asked.1, output, last),
        None => say(output, b"usage: rtc_pair run | rtc_pair demo N S\n", USAGE),
    }
}
