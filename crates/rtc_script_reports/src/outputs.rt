//! Lines of what polls gave.
ghost use Rattle.std.specs.Prelude.{◌≡◌, ◌<◌, ◌^◌, ◌++◌, OnOk, codes, string_bytes};
ghost use Rattle.std.specs.List.{AllByRecursion};
ghost use Rattle.rtc_peer_core.specs.RtcErrorText.{rtc_error_text};
ghost use Rattle.rtc_script_reports.specs.Fits.{FitsEnd, FitsPolled, FitsShown};
ghost use Rattle.rtc_script_reports.specs.Outputs.{end_line, error_line, moment_text, output_line, outputs_lines};
ghost use Rattle.rtc_script_reports.specs.Outputs.{polled_lines, reason_text};

use crate::events::push_event;
use crate::pushing::{push_named, push_number, push_word};
use crate::reading::read_error;
use crate::refusals::push_error_text;
use rtc_parts::Reason;
use rtc_peer_core::RtcError;
use rtc_plain_media::PlainMediaEvent;
use rtc_run_history::{Outcome, PollEnd, Shown};
use rtc_wire::Moment;
use std::alloc::{AllocError, Global};

fn reason_word(reason: Reason) -> &'static str
    ensures { result.now ≡ reason_text reason }
{
    match reason {
        Reason::NotHappening => "NotHappening",
        Reason::DTLS => "DTLS",
        Reason::Ice => "Ice",
        Reason::Sctp => "Sctp",
        Reason::Channel => "Channel",
        Reason::Stats => "Stats",
        Reason::Feedback => "Feedback",
        Reason::Nack => "Nack",
        Reason::Twcc => "Twcc",
        Reason::PauseCheck => "PauseCheck",
        Reason::SendStream => "SendStream",
        Reason::Packetize => "Packetize",
        Reason::ReceiveReorder => "ReceiveReorder",
    }
}

fn push_moment(out: &mut String, moment: Moment) -> Result<(), AllocError>
    ensures text { OnOk result (string_bytes out.new ≡ string_bytes out.old ++ moment_text moment) }
    ensures fit { OnOk result (moment < 2 ^ 64) }
{
    let nanos = moment.nanos();
    if nanos == u64::MAX {
        out.push_str("never")
    } else {
        push_number(out, nanos)
    }
}

fn push_output(
    alloc: Global,
    out: &mut String,
    shown: &Shown<PlainMediaEvent>,
) -> Result<(), AllocError>
    ensures text { OnOk result (string_bytes out.new ≡ string_bytes out.old ++ output_line shown.now) }
    ensures fit { OnOk result (FitsShown shown.now) }
{
    match shown {
        Shown::Timeout(moment, reason) => {
            out.push_str("out timeout ")?;
            push_moment(out, *moment)?;
            push_word(out, reason_word(*reason))?;
            out.push_str("\n")
        }
        Shown::Packet { number, len } => {
            push_named(out, "out packet ", *number)?;
            push_named(out, " ", *len as u64)?;
            out.push_str("\n")
        }
        Shown::Event(event) => {
            out.push_str("out event ")?;
            push_event(alloc, out, event)?;
            out.push_str("\n")
        }
    }
}

fn push_outputs(
    alloc: Global,
    out: &mut String,
    outputs: &[Shown<PlainMediaEvent>],
) -> Result<(), AllocError>
    ensures text { OnOk result (string_bytes out.new ≡ string_bytes out.old ++ outputs_lines outputs.now) }
    ensures fit { OnOk result (AllByRecursion FitsShown outputs.now) }
{
    for shown in outputs {
        push_output(alloc, out, shown)?;
    }
    Ok(())
}

fn push_error_line(out: &mut String, word: &str, error: &RtcError) -> Result<(), AllocError>
    ensures { OnOk result (string_bytes out.new ≡ string_bytes out.old ++ word.now ++ rtc_error_text error.now ++ codes "\n") }
{
    push_error_text(out, word, error)?;
    out.push_str("\n")
}

fn push_error(out: &mut String, error: &RtcError) -> Result<(), AllocError>
    ensures { OnOk result (string_bytes out.new ≡ string_bytes out.old ++ error_line error.now) }
{
    match error {
        RtcError::RemoteSdp(_) => push_error_line(out, "error 1 ", error),
        RtcError::Sdp(_) => push_error_line(out, "error 2 ", error),
        RtcError::Net(_) => push_error_line(out, "error 3 ", error),
        RtcError::Dtls(_) => push_error_line(out, "error 4 ", error),
        RtcError::Sctp(_) => push_error_line(out, "error 5 ", error),
        RtcError::Media(_) => push_error_line(out, "error 6 ", error),
        RtcError::ChangesOutOfOrder => push_error_line(out, "error 7 ", error),
        RtcError::BadChannel => push_error_line(out, "error 8 ", error),
        RtcError::Alloc => out.push_str("nomemory\n"),
        RtcError::Glare => push_error_line(out, "error 10 ", error),
    }
}

fn push_end(out: &mut String, end: &PollEnd) -> Result<(), AllocError>
    ensures text { OnOk result (string_bytes out.new ≡ string_bytes out.old ++ end_line end.now) }
    ensures fit { FitsEnd end.now }
{
    match end {
        PollEnd::Ended => Ok(()),
        PollEnd::Refused(error) => {
            read_error(error);
            push_error(out, error)
        }
        PollEnd::NoRoom => out.push_str("nomemory\n"),
    }
}

/// Puts behind a text what follows the line of an outcome: the outputs of polls, and what ended them.
pub fn push_polled(
    alloc: Global,
    out: &mut String,
    outcome: &Outcome<PlainMediaEvent>,
) -> Result<(), AllocError>
    ensures text { OnOk result (string_bytes out.new ≡ string_bytes out.old ++ polled_lines outcome.now) }
    ensures fit { OnOk result (FitsPolled outcome.now) }
{
    match outcome {
        Outcome::Polled { outputs, end } => {
            push_outputs(alloc, out, outputs.as_slice())?;
            push_end(out, end)
        }
        Outcome::Negotiated { .. }
        | Outcome::Answered { .. }
        | Outcome::Finished
        | Outcome::Done
        | Outcome::Wrote { .. }
        | Outcome::Refused(_)
        | Outcome::NoSuch
        | Outcome::Alloc => Ok(()),
    }
}
