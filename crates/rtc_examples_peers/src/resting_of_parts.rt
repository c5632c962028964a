//! Polls of peers over any parts.
use crate::resting::Resting;
use rtc_examples_cases::is_true;
use rtc_peer::{
    Association, DtlsInstance, IceAgent, Ids, MediaKind, MediaSession, Mid, Output, Rtc, RtcError,
};
use rtc_plain::PlainMediaEvent;
use rtc_wire::Moment;
use rtc_wire_drops::release;
use std::alloc::{AllocError, Global};

// The mid of a line, by its number.
fn line_mid(alloc: Global, line: u32) -> Result<Option<Mid>, AllocError> {
    let text = format!(in alloc; "l{line}")?;
    Ok(Mid::read(text.as_str()))
}

// Whether an output is the timeout of a moment.
fn is_timeout<E: Drop>(output: Output<E>, moment: Moment) -> bool {
    match output {
        Output::Timeout(at) => at.nanos() == moment.nanos(),
        Output::Transmit(transmit) => release(transmit, false),
        Output::Event(event) => release(event, false),
    }
}

// Whether what a poll returned is the timeout of a moment.
fn waits_until<E: Drop>(polled: Result<Output<E>, RtcError>, moment: Moment) -> bool {
    match polled {
        Ok(output) => is_timeout(output, moment),
        Err(error) => release(error, false),
    }
}

impl<
    I: IceAgent,
    D: DtlsInstance,
    S: Association,
    M: MediaSession<E = PlainMediaEvent>,
    N: Ids,
> Resting for Rtc<I, D, S, M, N> {
    fn declares(&mut self, alloc: Global, lines: u32) -> bool {
        for line in 0..lines {
            let Ok(Some(mid)) = line_mid(alloc, line) else {
                return false;
            };
            if !is_true(self.direct_api().declare_media(mid, MediaKind::Audio)) {
                return false;
            }
        }
        true
    }

    fn waits(&mut self, polls: u32, moment: Moment) -> bool {
        for _ in 0..polls {
            if !waits_until(self.poll_output(), moment) {
                return false;
            }
        }
        true
    }

    fn keeps(&self, moment: Option<Moment>) -> bool {
        self.kept_timeout() == moment
    }
}
