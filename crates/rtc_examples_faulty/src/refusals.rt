//! Refusals, and what may follow them.
use crate::part::Part;
use rtc_parts::Reason;
use rtc_peer::{DtlsError, MediaError, ProtoError, RtcError, SctpError, Why};
use rtc_plain::PlainMediaEvent;
use rtc_run_history::{Outcome, PollEnd, Reply, Shown, Step, Table};
use rtc_wire::Moment;

/// The error that a reply reports.
pub fn error_of(reply: &Reply<PlainMediaEvent>) -> Option<&RtcError> {
    match &reply.outcome {
        Outcome::Refused(error) => Some(error),
        Outcome::Polled {
            end: PollEnd::Refused(error),
            ..
        } => Some(error),
        _ => None,
    }
}

/// Whether an error reports a fault of a part.
pub fn is_fault_of(error: &RtcError, part: Part) -> bool {
    match (part, error) {
        (Part::Dtls, RtcError::Dtls(DtlsError::Fault)) => true,
        (Part::Association, RtcError::Sctp(SctpError::Proto(ProtoError::Fault))) => true,
        (Part::Media, RtcError::Media(MediaError::Rtp)) => true,
        _ => false,
    }
}

/// Whether an error says that the other side announced no fingerprint.
pub fn is_unannounced(error: &RtcError) -> bool {
    match error {
        RtcError::RemoteSdp(Why::NoneAnnounced) => true,
        _ => false,
    }
}

/// Whether a reply says that an offer or an answer was accepted.
pub fn is_accepted(reply: &Reply<PlainMediaEvent>) -> bool {
    match &reply.outcome {
        Outcome::Answered { .. } | Outcome::Finished => true,
        _ => false,
    }
}

/// Whether a step polls.
pub fn is_poll(step: &Step) -> bool {
    match step {
        Step::Poll { .. } | Step::Drain { .. } => true,
        _ => false,
    }
}

/// Whether a step accepts an offer or an answer.
pub fn is_acceptance(step: &Step) -> bool {
    match step {
        Step::AcceptOffer { .. } | Step::AcceptAnswer { .. } => true,
        _ => false,
    }
}

/// Whether two tables have the same lines. Before its first step a peer has none.
pub fn have_same_lines(before: Option<&Table>, after: Option<&Table>) -> bool {
    match (before, after) {
        (Some(before), Some(after)) => before.lines == after.lines,
        (None, Some(after)) => after.lines.is_empty(),
        _ => false,
    }
}

// A closed peer waits for a moment that is never reached.
fn waits_for_nothing(outputs: &[Shown<PlainMediaEvent>]) -> bool {
    match outputs {
        [Shown::Timeout(moment, reason)] => {
            (*moment == Moment::FAR_FUTURE) & (*reason == Reason::NotHappening)
        }
        _ => false,
    }
}

fn is_done(reply: &Reply<PlainMediaEvent>) -> bool {
    match &reply.outcome {
        Outcome::Done => true,
        _ => false,
    }
}

fn is_no_such(reply: &Reply<PlainMediaEvent>) -> bool {
    match &reply.outcome {
        Outcome::NoSuch => true,
        _ => false,
    }
}

/// Whether a closed peer may reply so to a step: it ignores inputs and closes, polls a timeout that is never reached, and has no channel.
pub fn is_of_closed(step: &Step, reply: &Reply<PlainMediaEvent>) -> bool {
    match step {
        Step::Time { .. } | Step::Close { .. } => is_done(reply),
        Step::Datagram { .. } => is_done(reply) | is_no_such(reply),
        Step::Drain { .. } | Step::Poll { .. } => match &reply.outcome {
            Outcome::Polled {
                outputs,
                end: PollEnd::Ended,
            } => waits_for_nothing(outputs.as_slice()),
            _ => false,
        },
        Step::Write { .. } | Step::CloseChannel { .. } => is_no_such(reply),
        _ => true,
    }
}
