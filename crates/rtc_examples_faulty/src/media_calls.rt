//! Calls of a media part, of which those that are listed fail.
use rtc_faulty::Faulty;
use rtc_parts::{MediaError, MediaSession};
use rtc_plain::PlainMedia;
use rtc_wire::Moment;
use std::alloc::{AllocError, Global};

#[derive(Clone, Copy)]
enum Call {
    Time,
    Poll,
}

// The numbers 0, 1 and 3 are listed, 1 of them twice. A poll uses a number only if it fails.
static LISTED: [(Call, bool); 8] = [
    (Call::Poll, false),
    (Call::Time, false),
    (Call::Poll, true),
    (Call::Time, true),
    (Call::Poll, false),
    (Call::Poll, true),
    (Call::Time, true),
    (Call::Time, true),
];

// Whether a refusal is a fault; None if it is another.
fn refused(error: &MediaError) -> Option<bool> {
    match error {
        MediaError::Rtp => Some(false),
        _ => None,
    }
}

fn timed<T: Drop>(answer: Result<T, MediaError>) -> Option<bool> {
    match &answer {
        Ok(_) => Some(true),
        Err(error) => refused(error),
    }
}

// A poll succeeds if it gives no event.
fn polled<E: Drop>(answer: Result<Option<E>, MediaError>) -> Option<bool> {
    match &answer {
        Ok(None) => Some(true),
        Ok(Some(_)) => None,
        Err(error) => refused(error),
    }
}

// Whether a call succeeds; None if it gives an event or another error than a fault.
fn make(part: &mut Faulty<PlainMedia>, call: Call) -> Option<bool> {
    match call {
        Call::Time => timed(part.handle_timeout(Moment::FAR_PAST)),
        Call::Poll => polled(part.poll_event_fallible(Moment::FAR_PAST)),
    }
}

fn answers(part: &mut Faulty<PlainMedia>) -> bool {
    for (call, succeeds) in &LISTED {
        if make(part, *call) != Some(*succeeds) {
            return false;
        }
    }
    true
}

/// Whether a media part fails at listed calls, however often they are listed.
pub fn fails_at_listed(alloc: Global) -> Result<bool, AllocError> {
    let failing = [0u64, 1, 3, 1].to_vec(alloc)?;
    let mut part = Faulty::new(PlainMedia::new(alloc), failing);
    Ok(answers(&mut part) & (part.faults() == 3))
}
