//! The text of a demo.
ghost use Rattle.std.specs.Prelude.{◌≡◌, ◌++◌, IfOk, OnOk, string_bytes};
ghost use Rattle.rtc_demo.specs.DemoCounts as spec;

use crate::DemoCounts;
use std::alloc::{AllocError, Global};

fn push_count(out: &mut String, name: &str, count: usize) -> Result<(), AllocError>
    ensures { OnOk result (string_bytes out.new ≡ string_bytes out.old ++ spec.count_line name.now count) }
{
    out.push_str(name)?;
    write!(out, " {count}\n")
}

/// The numbers of a demo, each in a line of its name.
#[tactic(auto, unfolding(crate::specs::DemoCounts::counts_text))]
pub fn write_counts(alloc: Global, counts: &DemoCounts) -> Result<String, AllocError>
    ensures { IfOk result (λ text. string_bytes text ≡ spec.counts_text counts.now) }
{
    let mut out = String::new(alloc);
    push_count(&mut out, "rounds", counts.rounds as usize)?;
    push_count(&mut out, "finished", counts.finished)?;
    push_count(&mut out, "lines", counts.lines)?;
    push_count(&mut out, "stopped", counts.stopped)?;
    push_count(&mut out, "channels", counts.channels)?;
    Ok(out)
}
