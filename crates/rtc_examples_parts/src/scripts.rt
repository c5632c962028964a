//! Scripts of two ends, each step with the reply that the rules of the association give by hand.
use rtc_assoc::{AssocReply, AssocStep, PlainAssociation, run_assoc};
use rtc_examples_cases::{is_list, is_true};
use rtc_parts::{AssocError, AssocEvent, Ppi};
use rtc_wire::{Bytes, Moment};
use std::alloc::{AllocError, Global};

/// The left end.
pub const L: bool = true;

/// The right end.
pub const R: bool = false;

/// A step, short to write. A moment is in milliseconds.
#[derive(Clone, Copy)]
pub enum Do {
    Connect(bool),
    Accept(bool),
    Open(bool, u16),
    Write(bool, u16, Ppi, &'static [u8]),
    Close(bool, u16),
    Time(bool, u64),
    Send(bool),
    Give(bool, u32, u64),
    Poll(bool),
    Read(bool, u16),
}

/// The expected result, a generation first if there is one.
#[derive(Clone, Copy)]
pub enum Says {
    Done,
    Refused(AssocError),
    Wrote(u64),
    Packet(Option<u32>),
    Event(Option<AssocEvent>),
    Message(u64, Option<(Ppi, &'static [u8])>),
    NoSuch,
}

fn moment(milliseconds: u64) -> Moment {
    Moment::from_nanos(milliseconds.saturating_mul(1_000_000))
}

fn bytes(alloc: Global, bytes: &[u8]) -> Result<Bytes, AllocError> {
    Ok(Bytes::new(Vec::from_slice(alloc, bytes)?))
}

fn step(alloc: Global, wanted: &Do) -> Result<AssocStep, AllocError> {
    Ok(match *wanted {
        Do::Connect(left) => AssocStep::Connect { left },
        Do::Accept(left) => AssocStep::Accept { left },
        Do::Open(left, id) => AssocStep::Open { left, id },
        Do::Write(left, id, ppi, message) => AssocStep::Write {
            left,
            id,
            ppi,
            bytes: bytes(alloc, message)?,
        },
        Do::Close(left, id) => AssocStep::CloseStream { left, id },
        Do::Time(left, at) => AssocStep::Time {
            left,
            now: moment(at),
        },
        Do::Send(left) => AssocStep::Transmit { left },
        Do::Give(left, packet, at) => AssocStep::Deliver {
            left,
            packet,
            now: moment(at),
        },
        Do::Poll(left) => AssocStep::Poll { left },
        Do::Read(left, id) => AssocStep::Read { left, id },
    })
}

fn reply(alloc: Global, said: &Says) -> Result<AssocReply, AllocError> {
    Ok(match *said {
        Says::Done => AssocReply::Done,
        Says::Refused(error) => AssocReply::Refused(error),
        Says::Wrote(generation) => AssocReply::Wrote { generation },
        Says::Packet(number) => AssocReply::Packet(number),
        Says::Event(event) => AssocReply::Event(event),
        Says::Message(generation, None) => AssocReply::Message {
            generation,
            message: None,
        },
        Says::Message(generation, Some((ppi, message))) => AssocReply::Message {
            generation,
            message: Some((ppi, bytes(alloc, message)?)),
        },
        Says::NoSuch => AssocReply::NoSuch,
    })
}

fn add_steps(
    alloc: Global,
    steps: &mut Vec<AssocStep>,
    script: &[(Do, Says)],
) -> Result<(), AllocError> {
    for (wanted, _) in script {
        let step = step(alloc, wanted)?;
        steps.push(step)?;
    }
    Ok(())
}

fn add_replies(
    alloc: Global,
    replies: &mut Vec<AssocReply>,
    script: &[(Do, Says)],
) -> Result<(), AllocError> {
    for (_, said) in script {
        let reply = reply(alloc, said)?;
        replies.push(reply)?;
    }
    Ok(())
}

// The replies of two fresh ends, whose packets have at most 40 bytes.
fn replies_to(alloc: Global, steps: &[AssocStep]) -> Result<Vec<AssocReply>, AllocError> {
    if steps.len() > 10_000 {
        return Err(AllocError);
    }
    let mut left = PlainAssociation::new(alloc);
    let mut right = PlainAssociation::new(alloc);
    run_assoc(alloc, 40, steps, &mut left, &mut right)
}

fn plays(
    alloc: Global,
    steps: &mut Vec<AssocStep>,
    replies: &mut Vec<AssocReply>,
    script: &[(Do, Says)],
) -> Result<bool, AllocError> {
    add_steps(alloc, steps, script)?;
    add_replies(alloc, replies, script)?;
    let given = replies_to(alloc, steps.as_slice());
    Ok(is_list(given, replies.as_slice()))
}

/// Whether each step of a script has the reply that it names.
pub fn is_played(alloc: Global, script: &[(Do, Says)]) -> bool {
    let mut steps = Vec::new(alloc);
    let mut replies = Vec::new(alloc);
    is_true(plays(alloc, &mut steps, &mut replies, script))
}
