//! Calls of a DTLS part, of which those that are listed fail.
use rtc_faulty::{CallCounts, CallKind, Counted, Faulty};
use rtc_parts::{DtlsError, DtlsInstance};
use rtc_plain::PlainDtls;
use rtc_wire::Moment;
use std::alloc::{AllocError, Global};
use std::rc::Rc;

#[derive(Clone, Copy)]
enum Call {
    Time,
    Receive(&'static [u8]),
    Send,
    Close,
}

// The numbers 1, 2 and 4 are listed. Data that has to wait for the handshake uses no number.
static LISTED: [(Call, Result<(), DtlsError>); 8] = [
    (Call::Time, Ok(())),
    (Call::Receive(b""), Err(DtlsError::Fault)),
    (Call::Send, Err(DtlsError::Fault)),
    (Call::Send, Err(DtlsError::WouldBlock)),
    (Call::Send, Err(DtlsError::WouldBlock)),
    (Call::Receive(b""), Ok(())),
    (Call::Close, Err(DtlsError::Fault)),
    (Call::Close, Ok(())),
];

static COUNTED: [(Call, Result<(), DtlsError>); 4] = [
    (Call::Receive(b""), Ok(())),
    (Call::Time, Ok(())),
    (Call::Receive(b"\x16\x02def"), Ok(())),
    (Call::Close, Ok(())),
];

fn make<D: DtlsInstance>(part: &mut D, call: Call) -> Result<(), DtlsError> {
    match call {
        Call::Time => part.handle_timeout(Moment::FAR_PAST),
        Call::Receive(packet) => part.handle_packet(packet),
        Call::Send => part.send_application_data(b"hi"),
        Call::Close => part.close(),
    }
}

// Whether the active side of a connection returns this from calls.
fn answers<D: DtlsInstance>(part: &mut D, calls: &[(Call, Result<(), DtlsError>)]) -> bool {
    part.set_active(true);
    for (call, answer) in calls {
        if make(part, *call) != *answer {
            return false;
        }
    }
    true
}

/// Whether a part fails at listed calls, in whatever order they are listed.
pub fn fails_at_listed(alloc: Global) -> Result<bool, AllocError> {
    let failing = [2u64, 4, 1].to_vec(alloc)?;
    let mut part = Faulty::new(PlainDtls::new(alloc), failing);
    Ok(answers(&mut part, &LISTED) & (part.faults() == 3))
}

fn counts_agree(counts: &CallCounts, total: u64) -> bool {
    let given = (counts.of(CallKind::Packet) == 2) & (counts.of(CallKind::Timeout) == 1);
    // The close, and that the side is active.
    let changed = counts.of(CallKind::Change) == 2;
    given & changed & (counts.total() == total)
}

/// Whether calls are counted by kind; those that change nothing too.
pub fn counts_calls(alloc: Global) -> Result<bool, AllocError> {
    let counts = Rc::new(alloc, CallCounts::new())?;
    let mut part = Counted::new(PlainDtls::new(alloc), Rc::clone(&counts)?);
    let answered = answers(&mut part, &COUNTED);
    let before = counts_agree(&counts, 5);
    let ended = part.is_finished() & part.is_closed();
    let _version = part.protocol_version();
    let readings = counts.of(CallKind::Reading);
    Ok(answered & before & ended & (readings == 3) & (counts.total() == 8))
}
