//! Whole reports.
ghost use Rattle.std.specs.Prelude.{◌≡◌, ◌++◌, OnOk, IfOk, string_bytes};
ghost use Rattle.rtc_script_reports.specs.Fits.{AreFit, FitsReply, FitsTable, FitsWords};
ghost use Rattle.rtc_script_reports.specs.Report.{table_lines, reply_text, step_line, step_lines, report};

use crate::channels::push_channels;
use crate::outcomes::push_outcome;
use crate::outputs::push_polled;
use crate::pushing::{push_named, push_word};
use crate::rows::push_rows;
use crate::words::side_word;
use rtc_plain_media::PlainMediaEvent;
use rtc_run_history::{Outcome, Reply, Step, Table};
use rtc_wire::Bytes;
use std::alloc::{AllocError, Global};

fn push_table(out: &mut String, table: &Option<Table>) -> Result<(), AllocError>
    ensures text { OnOk result (string_bytes out.new ≡ string_bytes out.old ++ table_lines table.now) }
    ensures fit { OnOk result (FitsTable table.now) }
{
    match table {
        None => Ok(()),
        Some(table) => {
            push_rows(out, table.lines.as_slice())?;
            push_channels(out, table.channels.as_slice())
        }
    }
}

// Puts the line of a step behind a text.
#[tactic(auto, unfolding(crate::specs::Report::step_line))]
fn push_step_line<E>(
    out: &mut String,
    number: usize,
    step: &Step,
    outcome: &Outcome<E>,
) -> Result<(), AllocError>
    ensures text { OnOk result (string_bytes out.new ≡ string_bytes out.old ++ step_line number step.now outcome.now) }
    ensures fit { OnOk result (FitsWords outcome.now) }
{
    push_named(out, "step ", number as u64)?;
    push_word(out, side_word(step.side()))?;
    out.push_str(" ")?;
    push_outcome(out, outcome)?;
    out.push_str("\n")
}

fn push_step(
    alloc: Global,
    out: &mut String,
    number: usize,
    step: &Step,
    reply: &Reply<PlainMediaEvent>,
) -> Result<(), AllocError>
    ensures text { OnOk result (string_bytes out.new ≡ string_bytes out.old ++ step_lines number step.now reply.now) }
    ensures fit { OnOk result (FitsReply reply.now) }
{
    push_step_line(out, number, step, &reply.outcome)?;
    push_polled(alloc, out, &reply.outcome)?;
    push_table(out, &reply.table)
}

fn push_reply(
    alloc: Global,
    out: &mut String,
    reply: &Reply<PlainMediaEvent>,
) -> Result<(), AllocError>
    ensures { OnOk result (string_bytes out.new ≡ string_bytes out.old ++ reply_text reply.now) }
{
    push_outcome(out, &reply.outcome)?;
    out.push_str("\n")?;
    push_polled(alloc, out, &reply.outcome)?;
    push_table(out, &reply.table)
}

/// The text of a step's reply, from the words of its outcome on: these, what its polls gave, and the lines and channels of the peer that
/// acted.
pub fn write_reply(
    alloc: Global,
    _step: &Step,
    reply: &Reply<PlainMediaEvent>,
) -> Result<Bytes, AllocError>
    ensures { IfOk result (λ text. text ≡ reply_text reply.now) }
{
    let mut out = String::new(alloc);
    push_reply(alloc, &mut out, reply)?;
    Ok(Bytes::new(out.into_bytes()))
}

/// The report of steps and their replies: a line for each reply, followed by what its polls gave, and by the lines and channels of the
/// peer that acted.
pub fn write_report(
    alloc: Global,
    steps: &[Step],
    replies: &[Reply<PlainMediaEvent>],
) -> Result<Vec<u8>, AllocError>
    ensures report { IfOk result (λ bytes. bytes.items ≡ report steps.now replies.now) }
    ensures fit { IfOk result (λ bytes. AreFit steps.now replies.now) }
{
    let mut out = String::new(alloc);
    for (number, step) in steps.iter().enumerate() {
        if number >= replies.len() {
            return Ok(out.into_bytes());
        }
        push_step(alloc, &mut out, number, step, &replies[number])?;
    }
    Ok(out.into_bytes())
}
