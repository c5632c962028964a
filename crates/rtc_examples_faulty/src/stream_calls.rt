//! Calls of an association, of which those that are listed fail.
use rtc_assoc_end::PlainAssociation;
use rtc_faulty::Faulty;
use rtc_parts::{AssocError, Association, Ppi};
use rtc_wire::Moment;
use std::alloc::{AllocError, Global};

#[derive(Clone, Copy)]
enum Call {
    Open,
    Write,
    Read,
    Close,
}

// How a call ends.
#[derive(Clone, Copy, PartialEq, Eq)]
enum End {
    Done,
    // No message is read.
    Nothing,
    Refused(AssocError),
}

// The numbers 0 and 4 are listed. The starts have the numbers 0 and 1, and the opening 2. A stream that is there is not opened again, and
// a reading that gives no message uses no number.
static LISTED: [(Call, End); 8] = [
    (Call::Open, End::Done),
    (Call::Open, End::Refused(AssocError::StreamExists)),
    (Call::Read, End::Nothing),
    (Call::Write, End::Done),
    (Call::Write, End::Refused(AssocError::Fault)),
    (Call::Read, End::Nothing),
    (Call::Write, End::Done),
    (Call::Close, End::Done),
];

fn ending<T: Drop>(answer: Result<T, AssocError>) -> End {
    match answer {
        Ok(_) => End::Done,
        Err(error) => End::Refused(error),
    }
}

fn make<S: Association>(part: &mut S, call: Call) -> End {
    if !part.is_started() {
        return End::Nothing;
    }
    match call {
        Call::Open => ending(part.open_stream(3)),
        Call::Write => ending(part.stream_write(3, Ppi::Text, b"hi")),
        Call::Read => match part.stream_read(3) {
            Ok(Some(_)) => End::Done,
            Ok(None) => End::Nothing,
            Err(error) => End::Refused(error),
        },
        Call::Close => ending(part.stream_close(3)),
    }
}

fn start<S: Association>(part: &mut S) -> End {
    if part.is_started() {
        return End::Nothing;
    }
    ending(part.connect(Moment::FAR_PAST, 40))
}

fn answers<S: Association>(part: &mut S) -> bool {
    let refused = start(part) == End::Refused(AssocError::Fault);
    let started = start(part) == End::Done;
    for (call, expected) in &LISTED {
        if make(part, *call) != *expected {
            return false;
        }
    }
    refused & started
}

/// Whether an association fails at listed calls.
pub fn fails_at_listed(alloc: Global) -> Result<bool, AllocError> {
    let failing = [0u64, 4].to_vec(alloc)?;
    let mut part = Faulty::new(PlainAssociation::new(alloc), failing);
    Ok(answers(&mut part) & (part.faults() == 2))
}
