//! Messages that open channels and acknowledge them (RFC 8832, section 5) from another end that does as it likes: malformed ones,
//! unexpected ones, and openings of streams of this side's parity.
use crate::log::Log;
use crate::scenes::fresh;
use crate::streams::Streams;
use crate::two_peers::{open, settle};
use rtc_sctp::SctpEvent;
use rtc_wire_drops::release;
use std::alloc::{AllocError, Global};

/// A step of one side.
#[derive(Clone, Copy)]
enum Do {
    /// It starts, as the client or as the server.
    Start(bool),
    /// It opens a stream that is negotiated out-of-band.
    Settle(u16),
    /// It opens a stream in-band.
    Open(u16),
    /// It closes a stream.
    Shut(u16),
    /// It takes a packet.
    Take(&'static [u8]),
    /// It takes the item of this number on this stream, a whole message under this payload protocol identifier.
    Hear(u64, u16, u32, &'static [u8]),
    /// It is polled until nothing is left.
    Idle,
    /// It writes a text, which is taken.
    Tell(u16),
    /// It writes a text, which is refused.
    Mute(u16),
}

// The payload protocol identifier of messages that open channels and acknowledge them (RFC 8832, section 8.1).
const DCEP: u32 = 50;

// One that means nothing.
const UNKNOWN: u32 = 99;

const HELLO: &[u8] = &[1];

const HELLO_ANSWERED: &[u8] = &[2];

const ACK: &[u8] = &[2];

// The opening of a reliable, ordered channel with the label `own`.
const OPENING: &[u8] = &[3, 0, 0, 0, 0, 0, 0, 0, 0, 3, 0, 0, 111, 119, 110];

// Openings without a byte, without their last one, shorter than the label is to be, of another kind, and with a label that is no UTF-8.
static OPENINGS: [Do; 18] = [
    Do::Start(false),
    Do::Take(HELLO),
    Do::Idle,
    Do::Hear(1, 0, DCEP, &[]),
    Do::Idle,
    Do::Mute(0),
    Do::Hear(2, 2, DCEP, &[3, 0, 0, 0, 0, 0, 0, 0, 0, 0, 0]),
    Do::Idle,
    Do::Mute(2),
    Do::Hear(3, 4, DCEP, &[3, 0, 0, 0, 0, 0, 0, 0, 0, 2, 0, 0, 97]),
    Do::Idle,
    Do::Mute(4),
    Do::Hear(4, 6, DCEP, &[5, 0, 0, 0, 0, 0, 0, 0, 0, 1, 0, 0, 97]),
    Do::Idle,
    Do::Mute(6),
    Do::Hear(5, 8, DCEP, &[3, 0, 0, 0, 0, 0, 0, 0, 0, 1, 0, 0, 255]),
    Do::Idle,
    Do::Mute(8),
];

const OPENINGS_END: &str =
    "idle\nclose 0, reset pending\nidle\nclose 2, reset pending\nidle\nclose 4, reset pending\nidle\n\
    close 6, reset pending\nidle\nclose 8, reset pending\nidle\n";

// On open streams an opening, an acknowledgement, a second one, and a message under an identifier that means nothing.
static OPEN: [Do; 21] = [
    Do::Start(true),
    Do::Settle(0),
    Do::Settle(2),
    Do::Open(4),
    Do::Settle(6),
    Do::Take(HELLO_ANSWERED),
    Do::Idle,
    Do::Hear(1, 4, DCEP, ACK),
    Do::Idle,
    Do::Hear(2, 0, DCEP, OPENING),
    Do::Idle,
    Do::Mute(0),
    Do::Hear(3, 2, DCEP, ACK),
    Do::Idle,
    Do::Mute(2),
    Do::Hear(4, 4, DCEP, ACK),
    Do::Idle,
    Do::Mute(4),
    Do::Hear(5, 6, UNKNOWN, ACK),
    Do::Idle,
    Do::Mute(6),
];

const OPEN_END: &str =
    "open 0 chat\nopen 2 chat\nopen 6 chat\nidle\nopen 4 chat\nidle\nclose 0, reset pending\nidle\n\
    close 2, reset pending\nidle\nclose 4, reset pending\nidle\nclose 6, reset pending\nidle\n";

// Acknowledgements without a byte, of another kind, and an opening in place of one.
static ACKNOWLEDGEMENTS: [Do; 15] = [
    Do::Start(true),
    Do::Open(0),
    Do::Open(2),
    Do::Open(4),
    Do::Take(HELLO_ANSWERED),
    Do::Idle,
    Do::Hear(1, 0, DCEP, &[]),
    Do::Idle,
    Do::Mute(0),
    Do::Hear(2, 2, DCEP, &[4]),
    Do::Idle,
    Do::Mute(2),
    Do::Hear(3, 4, DCEP, OPENING),
    Do::Idle,
    Do::Mute(4),
];

const ACKNOWLEDGEMENTS_END: &str =
    "idle\nclose 0, reset pending\nidle\nclose 2, reset pending\nidle\nclose 4, reset pending\nidle\n";

// The streams of a client have even numbers (RFC 8832, section 6). The other end opens one of them.
static CLIENT: [Do; 6] = [
    Do::Start(true),
    Do::Take(HELLO_ANSWERED),
    Do::Idle,
    Do::Hear(1, 2, DCEP, OPENING),
    Do::Idle,
    Do::Tell(2),
];

// Those of a server have odd numbers.
static SERVER: [Do; 6] = [
    Do::Start(false),
    Do::Take(HELLO),
    Do::Idle,
    Do::Hear(1, 3, DCEP, OPENING),
    Do::Idle,
    Do::Tell(3),
];

// The other end closes the stream that was closed here, and opens it again: item 2 is its close, item 3 an opening of the next
// generation, and both acknowledge item 2 of this side. The reset is complete once the opening was reported.
static HELD: [Do; 12] = [
    Do::Start(true),
    Do::Open(0),
    Do::Take(HELLO_ANSWERED),
    Do::Idle,
    Do::Hear(1, 0, DCEP, ACK),
    Do::Idle,
    Do::Shut(0),
    Do::Idle,
    Do::Take(&[
        3, 0, 0, 0, 0, 0, 0, 0, 2, 0, 0, 0, 0, 0, 0, 0, 2, 0, 0, 0, 0, 0, 0, 2, 0, 0, 0, 0,
    ]),
    Do::Take(&[
        3, 0, 0, 0, 0, 0, 0, 0, 2, 0, 0, 0, 0, 0, 0, 0, 3, 0, 0, 0, 0, 0, 1, 1, 0, 0, 0, 50, 3, 0,
        0, 0, 0, 0, 0, 0, 0, 3, 0, 0, 111, 119, 110,
    ]),
    Do::Idle,
    Do::Tell(0),
];

const HELD_TAKEN: &str =
    "idle\nopen 0 chat\nidle\nclose 0, reset pending\nidle\nopen 0 own\nreset 0\nidle\n";

// Notes an event of a stream.
fn note(event: &SctpEvent, log: &mut Log) {
    match event {
        SctpEvent::Transmit { .. } => {}
        SctpEvent::Open { id, label } => log.add_event("open", *id, " ", label.as_str()),
        SctpEvent::Close {
            id,
            reset_pending: true,
        } => log.add_event("close", *id, ", ", "reset pending"),
        SctpEvent::Close {
            id,
            reset_pending: false,
        } => log.add_event("close", *id, "", ""),
        SctpEvent::StreamResetComplete { id } => log.add_event("reset", *id, "", ""),
        _ => log.add_word("other"),
    }
}

// Notes what a poll gave. Returns whether there may be more.
fn note_next(given: &Result<Option<SctpEvent>, AllocError>, log: &mut Log) -> bool {
    match given {
        Ok(Some(event)) => {
            note(event, log);
            true
        }
        Ok(None) => {
            log.add_word("idle");
            false
        }
        Err(_) => {
            log.need(false);
            false
        }
    }
}

fn poll<T: Streams>(side: &mut T, log: &mut Log) -> bool {
    let given = side.next();
    let more = note_next(&given, log);
    release(given, more)
}

fn idle<T: Streams>(side: &mut T, log: &mut Log) {
    for _ in 0..u32::MAX {
        if !poll(side, log) {
            break;
        }
    }
}

// An item that is a whole message of a stream's first generation, in a packet that acknowledges nothing.
fn item(
    alloc: Global,
    number: u64,
    id: u16,
    kind: u32,
    message: &[u8],
) -> Result<Vec<u8>, AllocError> {
    let mut packet = vec![in alloc; 3u8; 1]?;
    packet.extend_from_slice(&0u64.to_be_bytes())?;
    packet.extend_from_slice(&number.to_be_bytes())?;
    packet.extend_from_slice(&id.to_be_bytes())?;
    packet.extend_from_slice(&0u32.to_be_bytes())?;
    packet.push(1)?;
    packet.extend_from_slice(&kind.to_be_bytes())?;
    packet.extend_from_slice(message)?;
    Ok(packet)
}

fn hear<T: Streams>(side: &mut T, packet: &Result<Vec<u8>, AllocError>) -> bool {
    match packet {
        Ok(packet) => side.take(packet.as_slice()),
        Err(_) => false,
    }
}

fn perform<T: Streams>(alloc: Global, side: &mut T, wanted: &Do, log: &mut Log) {
    match *wanted {
        Do::Start(client) => log.need(side.start(client)),
        Do::Settle(id) => log.need(settle(alloc, side, id, "chat")),
        Do::Open(id) => log.need(open(alloc, side, id, "chat")),
        Do::Shut(id) => log.need(side.shut(id)),
        Do::Take(packet) => log.need(side.take(packet)),
        Do::Hear(number, id, kind, message) => {
            let packet = item(alloc, number, id, kind, message);
            log.need(hear(side, &packet));
        }
        Do::Idle => idle(side, log),
        Do::Tell(id) => log.need(side.tell(id, "hello")),
        Do::Mute(id) => log.need(!side.tell(id, "hello")),
    }
}

// Whether a side that performs these steps reports this.
fn reports<T: Streams + Drop>(alloc: Global, side: T, steps: &[Do], text: &str) -> bool {
    let mut side = side;
    let mut log = Log::new(alloc);
    for wanted in steps {
        perform(alloc, &mut side, wanted, &mut log);
    }
    log.is(text)
}

// Whether a fresh side that performs these steps reports this.
fn is_reported(alloc: Global, steps: &[Do], text: &str) -> bool {
    reports(alloc, fresh(alloc, false), steps, text)
}

/// Whether an example of such messages gives what is expected.
pub fn does_agree(alloc: Global, example: &str) -> bool {
    match example {
        "malformed openings end their streams" => is_reported(alloc, &OPENINGS, OPENINGS_END),
        "unexpected messages end open streams" => is_reported(alloc, &OPEN, OPEN_END),
        "malformed acknowledgements end openings" => {
            is_reported(alloc, &ACKNOWLEDGEMENTS, ACKNOWLEDGEMENTS_END)
        }
        "openings of streams of the own parity are taken" => {
            is_reported(alloc, &CLIENT, "idle\nopen 2 own\nidle\n")
                & is_reported(alloc, &SERVER, "idle\nopen 3 own\nidle\n")
        }
        "openings of streams that are held are taken" => is_reported(alloc, &HELD, HELD_TAKEN),
        _ => false,
    }
}
