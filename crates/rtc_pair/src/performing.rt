//! Scripts that are run, with their reports.
ghost use Rattle.std.specs.Prelude.{◌≡◌, ◌<◌, ◌^◌, ◌⊎◌, true, false};
ghost use Rattle.rtc_io.specs.Saying.{BreaksOff};
ghost use Rattle.rtc_run_history.specs.Sizes.{steps_size};
ghost use Rattle.rtc_script_reports.specs.Report.{report};
ghost use Rattle.rtc_pair.specs.Performed.{IsReport, KeepsReport, PerformsScript};

use crate::running::{lack_memory, run_script};
use rtc_io::{OUT_OF_MEMORY, SINK_FAILED, Sink, write_all};
use rtc_plain::PlainMediaEvent;
use rtc_run::PlainPair;
use rtc_run_history::{Reply, Step};
use rtc_script::Script;
use rtc_script_reports::write_report;
use std::alloc::Global;

// Writes the report of steps and their replies, and then keeps what they were performed on.
fn report_steps<W: Sink, P: Drop>(
    alloc: Global,
    steps: &[Step],
    replies: &[Reply<PlainMediaEvent>],
    output: &mut W,
    performed: P,
    last: &mut Option<P>,
) -> u8
    ensures done { result ≡ 0 → KeepsReport false steps.now replies.now performed (W.written output.old) (W.written output.new) last.new }
    ensures write { result ≡ 5
        → BreaksOff (λ text. text ≡ report steps.now replies.now)
        (W.written output.old) (W.written output.new) (W.faults output.old) (W.faults output.new) }
    ensures memory { result ≡ 6
        → KeepsReport true steps.now replies.now performed (W.written output.old) (W.written output.new) last.new
        ⊎ ((output.new ≡ output.old) × (last.new ≡ last.old)) }
    ensures kept { result ≡ 5 → last.new ≡ last.old }
    ensures statuses { (result ≡ 0) ⊎ (result ≡ 5) ⊎ (result ≡ 6) }
{
    let Ok(text) = write_report(alloc, steps, replies) else {
        return OUT_OF_MEMORY;
    };
    let Ok(()) = write_all(output, text.as_slice()) else {
        return SINK_FAILED;
    };
    *last = Some(performed);
    if lack_memory(replies) {
        OUT_OF_MEMORY
    } else {
        0
    }
}

/// Runs a script, writes its report to `output`, and returns the status.
pub fn perform_script<W: Sink>(
    alloc: Global,
    script: &Script,
    output: &mut W,
    last: &mut Option<PlainPair>,
) -> u8
    requires { steps_size script.now.steps < 2 ^ 32 }
    ensures done { result ≡ 0 → PerformsScript alloc false script.now (W.written output.old) (W.written output.new) last.new }
    ensures write { result ≡ 5
        → BreaksOff (IsReport alloc script.now)
        (W.written output.old) (W.written output.new) (W.faults output.old) (W.faults output.new) }
    ensures memory { result ≡ 6
        → PerformsScript alloc true script.now (W.written output.old) (W.written output.new) last.new
        ⊎ ((output.new ≡ output.old) × (last.new ≡ last.old)) }
    ensures kept { result ≡ 5 → last.new ≡ last.old }
    ensures statuses { (result ≡ 0) ⊎ (result ≡ 5) ⊎ (result ≡ 6) }
{
    let Ok((pair, replies)) = run_script(alloc, script) else {
        return OUT_OF_MEMORY;
    };
    let steps = script.steps.as_slice();
    report_steps(alloc, steps, replies.as_slice(), output, pair, last)
}
