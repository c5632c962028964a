//! Outcomes.
ghost use Rattle.std.specs.Prelude.{◌≡◌, ◌++◌, OnOk, string_bytes};
ghost use Rattle.std.specs.List.{AllByRecursion};
ghost use Rattle.rtc_script_reports.specs.Fits.{FitsAnswer, FitsMade, FitsWords};
ghost use Rattle.rtc_script_reports.specs.Outcomes.{op_answer_text, more_answers, answers_text, made_text, outcome_text};

use crate::pushing::{push_named, push_number};
use crate::refusals::push_refusal;
use rtc_run_history::{Made, OpAnswer, Outcome};
use std::alloc::AllocError;

fn push_answer(out: &mut String, answer: &OpAnswer) -> Result<(), AllocError>
    ensures text { OnOk result (string_bytes out.new ≡ string_bytes out.old ++ op_answer_text answer.now) }
    ensures fit { OnOk result (FitsAnswer answer.now) }
{
    match answer {
        OpAnswer::Mid(mid) => out.push_str(mid.as_str()),
        OpAnswer::Changed(true) => out.push_str("true"),
        OpAnswer::Changed(false) => out.push_str("false"),
        OpAnswer::NoLine => out.push_str("none"),
        OpAnswer::Channel(id) => { push_named(out, "c", id.number()) }
        OpAnswer::BadChannel => out.push_str("bad"),
        OpAnswer::Creds(creds) => out.push_str(creds.ufrag.as_str()),
        OpAnswer::Alloc => out.push_str("nomemory"),
    }
}

// Results behind the first, each behind a comma.
fn push_more_answers(out: &mut String, answers: &[OpAnswer]) -> Result<(), AllocError>
    ensures text { OnOk result (string_bytes out.new ≡ string_bytes out.old ++ more_answers answers.now) }
    ensures fit { OnOk result (AllByRecursion FitsAnswer answers.now) }
{
    for answer in answers {
        out.push_str(",")?;
        push_answer(out, answer)?;
    }
    Ok(())
}

fn push_answers(out: &mut String, answers: &[OpAnswer]) -> Result<(), AllocError>
    ensures text { OnOk result (string_bytes out.new ≡ string_bytes out.old ++ answers_text answers.now) }
    ensures fit { OnOk result (AllByRecursion FitsAnswer answers.now) }
{
    match answers.split_first() {
        None => out.push_str("-"),
        Some((first, more)) => {
            push_answer(out, first)?;
            push_more_answers(out, more)
        }
    }
}

fn push_made(out: &mut String, made: Made) -> Result<(), AllocError>
    ensures text { OnOk result (string_bytes out.new ≡ string_bytes out.old ++ made_text made) }
    ensures fit { OnOk result (FitsMade made) }
{
    match made {
        Made::NotAsked | Made::Nothing => out.push_str("-"),
        Made::Offer(number) => push_number(out, u64::from(number)),
        Made::Alloc => out.push_str("nomemory"),
    }
}

/// Puts the words of an outcome behind a text.
pub fn push_outcome<E>(out: &mut String, outcome: &Outcome<E>) -> Result<(), AllocError>
    ensures text { OnOk result (string_bytes out.new ≡ string_bytes out.old ++ outcome_text outcome.now) }
    ensures fit { OnOk result (FitsWords outcome.now) }
{
    match outcome {
        Outcome::Negotiated { answers, made } => {
            out.push_str("ops ")?;
            push_answers(out, answers.as_slice())?;
            out.push_str(" text ")?;
            push_made(out, *made)
        }
        Outcome::Answered { text } => { push_named(out, "answered ", u64::from(*text)) }
        Outcome::Finished => out.push_str("finished"),
        Outcome::Done => out.push_str("done"),
        Outcome::Wrote { taken: true } => out.push_str("wrote true"),
        Outcome::Wrote { taken: false } => out.push_str("wrote false"),
        Outcome::Polled { outputs, .. } => {
            push_named(out, "polled ", outputs.as_slice().len() as u64)
        }
        Outcome::Refused(error) => push_refusal(out, error),
        Outcome::NoSuch => out.push_str("nosuch"),
        Outcome::Alloc => out.push_str("nomemory"),
    }
}
