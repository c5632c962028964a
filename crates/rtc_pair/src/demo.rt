//! Demos.
ghost use Rattle.std.specs.Prelude.{◌≡◌, ◌≤◌, ◌<◌, ◌^◌, ◌⊎◌, IfOk};
ghost use Rattle.rtc_io.specs.Saying.{BreaksOff};
ghost use Rattle.rtc_run_history.specs.Sizes.{steps_size};
ghost use Rattle.rtc_pair.specs.PerformedDemo.{demo_script, demo_text, IsDemoText, PerformsDemo, TellsCounts};

use crate::running::{lack_memory, run_script};
use rtc_demo::{count_demo, demo_steps, write_counts};
use rtc_io::{OUT_OF_MEMORY, SINK_FAILED, Sink, write_all};
use rtc_plain::PlainMediaEvent;
use rtc_run::PlainPair;
use rtc_run_history::{Reply, Step};
use rtc_script::Script;
use rtc_wire::Seq;
use std::alloc::{AllocError, Global};

// The steps of a demo as a script.
fn demo_script(alloc: Global, rounds: u32, seed: u32) -> Result<Script, AllocError>
    requires { rounds ≤ 100 }
    ensures script { IfOk result (λ script. script ≡ demo_script rounds seed) }
    ensures sizes { IfOk result (λ script. steps_size script.steps < 2 ^ 32) }
{
    let steps = demo_steps(alloc, rounds, seed)?;
    Ok(Script {
        settings: Seq::empty(alloc),
        steps,
    })
}

// Writes the counts over the replies, unless one of them reports that memory ran out, and then keeps what the steps were performed on.
fn tell_counts<W: Sink, P: Drop>(
    alloc: Global,
    rounds: u32,
    steps: &[Step],
    replies: &[Reply<PlainMediaEvent>],
    output: &mut W,
    performed: P,
    last: &mut Option<P>,
) -> u8
    ensures done { result ≡ 0
        → TellsCounts rounds steps.now replies.now performed (W.written output.old) (W.written output.new) last.new }
    ensures write { result ≡ 5
        → BreaksOff (λ text. text ≡ demo_text rounds steps.now replies.now)
        (W.written output.old) (W.written output.new) (W.faults output.old) (W.faults output.new) }
    ensures memory { result ≡ 6 → (output.new ≡ output.old) × (last.new ≡ last.old) }
    ensures kept { result ≡ 5 → last.new ≡ last.old }
    ensures statuses { (result ≡ 0) ⊎ (result ≡ 5) ⊎ (result ≡ 6) }
{
    if lack_memory(replies) {
        return OUT_OF_MEMORY;
    }
    let counts = count_demo(rounds, steps, replies);
    let Ok(text) = write_counts(alloc, &counts) else {
        return OUT_OF_MEMORY;
    };
    let Ok(()) = write_all(output, text.as_bytes()) else {
        return SINK_FAILED;
    };
    *last = Some(performed);
    0
}

/// Performs a demo of so many rounds, which a seed determines, on the pair of the program; writes the counts over the
/// replies, and returns the status.
pub fn perform_demo<W: Sink>(
    alloc: Global,
    rounds: u32,
    seed: u32,
    output: &mut W,
    last: &mut Option<PlainPair>,
) -> u8
    requires { rounds ≤ 100 }
    ensures done { result ≡ 0 → PerformsDemo alloc rounds seed (W.written output.old) (W.written output.new) last.new }
    ensures write { result ≡ 5 → BreaksOff (IsDemoText alloc rounds seed)
        (W.written output.old) (W.written output.new) (W.faults output.old) (W.faults output.new) }
    ensures memory { result ≡ 6 → (output.new ≡ output.old) × (last.new ≡ last.old) }
    ensures kept { result ≡ 5 → last.new ≡ last.old }
    ensures statuses { (result ≡ 0) ⊎ (result ≡ 5) ⊎ (result ≡ 6) }
{
    let Ok(script) = demo_script(alloc, rounds, seed) else {
        return OUT_OF_MEMORY;
    };
    let Ok((pair, replies)) = run_script(alloc, &script) else {
        return OUT_OF_MEMORY;
    };
    let steps = script.steps.as_slice();
    tell_counts(alloc, rounds, steps, replies.as_slice(), output, pair, last)
}
