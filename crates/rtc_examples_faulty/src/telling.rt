//! What replies report.
use rtc_plain::PlainMediaEvent;
use rtc_run_history::{Outcome, Reply, Shown};

/// The outputs that a reply shows.
pub fn outputs(reply: &Reply<PlainMediaEvent>) -> &[Shown<PlainMediaEvent>] {
    match &reply.outcome {
        Outcome::Polled { outputs, .. } => outputs.as_slice(),
        _ => &[],
    }
}
