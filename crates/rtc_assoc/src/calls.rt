//! One call at one end.
ghost use Rattle.std.specs.Prelude.{◌≡◌, ◌&&◌, ◌<◌, ◌≤◌, ◌+◌, ◌^◌, not, length, [], ◌∷◌, ◌++◌, IfOk, OnOk};
ghost use Rattle.std.specs.Prelude.{Ok, OnErr, IfSome, IsNone, Some, true, false, slice_get};
ghost use Rattle.rtc_assoc.specs.declared.assoc_step.AssocStep.TheVariants.{Transmit};
ghost use Rattle.std.specs.Option.{option_copied};
ghost use Rattle.rtc_assoc_state.specs.Contents.{is_started};
ghost use Rattle.rtc_parts.specs.Returned.{returned_message};
ghost use Rattle.rtc_assoc.specs.Steps.{is_refusal, Tried, Connects, Accepts, Opens, Writes, ClosesStream};
ghost use Rattle.rtc_assoc.specs.Steps.{StepTimes, Delivers, StepPolls, StepReads, StepTransmits};
ghost use Rattle.rtc_assoc.specs.Steps.{PerformsAssocStep, is_packet_for, bytes_of};

use crate::assoc_reply::AssocReply;
use crate::sent::Sent;
use rtc_assoc_end::PlainAssociation;
use rtc_parts::{AssocError, Association, Ppi};
use rtc_wire::{Bytes, Moment};
use std::alloc::AllocError;

// Whether a refusal is shown. A plain association has no faults.
fn is_refusal(error: AssocError) -> bool
    ensures { result ≡ is_refusal error }
{
    match error {
        AssocError::StreamExists => true,
        AssocError::ResetPending => true,
        AssocError::NoStream => true,
        AssocError::TooLong => true,
        AssocError::Closing => true,
        AssocError::Fault => false,
        AssocError::Alloc => false,
    }
}

pub fn connect(end: &mut PlainAssociation) -> Result<AssocReply, AllocError>
    ensures { IfOk result (λ reply. Tried (not (is_started end.old)) (Connects reply end.old end.new) reply end.old end.new) }
{
    if end.is_started() {
        return Ok(AssocReply::NoSuch);
    }
    match end.connect(Moment::FAR_PAST, u32::MAX) {
        Ok(()) => Ok(AssocReply::Done),
        Err(error) => {
            if is_refusal(error) {
                return Ok(AssocReply::Refused(error));
            }
            Err(AllocError)
        }
    }
}

pub fn accept(end: &mut PlainAssociation) -> Result<AssocReply, AllocError>
    ensures { IfOk result (λ reply. Tried (not (is_started end.old)) (Accepts reply end.old end.new) reply end.old end.new) }
{
    if end.is_started() {
        return Ok(AssocReply::NoSuch);
    }
    match end.accept(Moment::FAR_PAST, u32::MAX) {
        Ok(()) => Ok(AssocReply::Done),
        Err(error) => {
            if is_refusal(error) {
                return Ok(AssocReply::Refused(error));
            }
            Err(AllocError)
        }
    }
}

pub fn open(end: &mut PlainAssociation, id: u16) -> Result<AssocReply, AllocError>
    ensures { IfOk result (λ reply. Tried (is_started end.old) (Opens id reply end.old end.new) reply end.old end.new) }
{
    if !end.is_started() {
        return Ok(AssocReply::NoSuch);
    }
    match end.open_stream(id) {
        Ok(()) => Ok(AssocReply::Done),
        Err(error) => {
            if is_refusal(error) {
                return Ok(AssocReply::Refused(error));
            }
            Err(AllocError)
        }
    }
}

pub fn write(
    end: &mut PlainAssociation,
    id: u16,
    ppi: Ppi,
    bytes: &[u8],
) -> Result<AssocReply, AllocError>
    ensures { IfOk result (λ reply. Tried (is_started end.old) (Writes id ppi bytes.now reply end.old end.new) reply end.old end.new) }
{
    if !end.is_started() {
        return Ok(AssocReply::NoSuch);
    }
    let generation = end.generation(id);
    match end.stream_write(id, ppi, bytes) {
        Ok(_) => Ok(AssocReply::Wrote { generation }),
        Err(error) => {
            if is_refusal(error) {
                return Ok(AssocReply::Refused(error));
            }
            Err(AllocError)
        }
    }
}

pub fn close_stream(end: &mut PlainAssociation, id: u16) -> Result<AssocReply, AllocError>
    ensures { IfOk result (λ reply. Tried (is_started end.old) (ClosesStream id reply end.old end.new) reply end.old end.new) }
{
    if !end.is_started() {
        return Ok(AssocReply::NoSuch);
    }
    match end.stream_close(id) {
        Ok(()) => Ok(AssocReply::Done),
        Err(error) => {
            if is_refusal(error) {
                return Ok(AssocReply::Refused(error));
            }
            Err(AllocError)
        }
    }
}

pub fn time(end: &mut PlainAssociation, now: Moment) -> Result<AssocReply, AllocError>
    ensures { IfOk result (λ reply. Tried (is_started end.old) (StepTimes now reply end.old end.new) reply end.old end.new) }
{
    if !end.is_started() {
        return Ok(AssocReply::NoSuch);
    }
    match end.handle_timeout(now) {
        Ok(()) => Ok(AssocReply::Done),
        Err(error) => Err(error),
    }
}

pub fn poll(end: &mut PlainAssociation) -> AssocReply
    ensures { Tried (is_started end.old) (StepPolls result end.old end.new) result end.old end.new }
{
    if !end.is_started() {
        return AssocReply::NoSuch;
    }
    let event = end.poll();
    AssocReply::Event(event)
}

// A message that was read, as a reply keeps it.
fn kept_message(message: Option<(Ppi, Vec<u8>)>) -> Option<(Ppi, Bytes)>
    ensures { returned_message (Ok message) ≡ Ok result }
{
    match message {
        None => None,
        Some((ppi, bytes)) => Some((ppi, Bytes::new(bytes))),
    }
}

pub fn read(end: &mut PlainAssociation, id: u16) -> Result<AssocReply, AllocError>
    ensures { IfOk result (λ reply. Tried (is_started end.old) (StepReads id reply end.old end.new) reply end.old end.new) }
{
    if !end.is_started() {
        return Ok(AssocReply::NoSuch);
    }
    let generation = end.generation(id);
    match end.stream_read(id) {
        Ok(message) => Ok(AssocReply::Message {
            generation,
            message: kept_message(message),
        }),
        Err(error) => {
            if is_refusal(error) {
                return Ok(AssocReply::Refused(error));
            }
            Err(AllocError)
        }
    }
}

fn keep(packets: &mut Vec<Sent>, from_left: bool, bytes: Bytes) -> Result<(), AllocError>
    ensures ok { OnOk result (packets.new.items ≡ packets.old.items ++ (record { from_left = from_left; bytes = bytes }) ∷ []) }
    ensures err { OnErr result (packets.new.items ≡ packets.old.items) }
{
    packets.push(Sent { from_left, bytes })?;
    Ok(())
}

pub fn transmit(
    end: &mut PlainAssociation,
    left: bool,
    packets: &mut Vec<Sent>,
) -> Result<AssocReply, AllocError>
    requires { length packets.old.items < 2 ^ 32 }
    ensures performs { IfOk result (λ reply. PerformsAssocStep (Transmit left) reply end.old end.new packets.old.items packets.new.items) }
    ensures few { length packets.new.items ≤ length packets.old.items + 1 }
{
    if !end.is_started() {
        return Ok(AssocReply::NoSuch);
    }
    let number = packets.len() as u32;
    match end.poll_transmit() {
        None => Ok(AssocReply::Packet(None)),
        Some(bytes) => {
            keep(packets, left, Bytes::new(bytes))?;
            Ok(AssocReply::Packet(Some(number)))
        }
    }
}

// The packet of a number, if it is one for this end.
fn packet_for(packets: &[Sent], left: bool, number: u32) -> Option<&Sent>
    ensures some { IfSome result (λ sent. (slice_get packets.now number ≡ Some sent.now)
        × (is_packet_for left (slice_get packets.now number) ≡ true)) }
    ensures none { IsNone result → is_packet_for left (slice_get packets.now number) ≡ false }
{
    match packets.get(number as usize) {
        None => None,
        Some(sent) => {
            if sent.from_left != left {
                Some(sent)
            } else {
                None
            }
        }
    }
}

pub fn deliver(
    end: &mut PlainAssociation,
    left: bool,
    number: u32,
    now: Moment,
    packets: &[Sent],
) -> Result<AssocReply, AllocError>
    ensures { IfOk result (λ reply. let sent = slice_get packets.now number in
        Tried (is_started end.old && is_packet_for left sent)
        (Delivers (bytes_of sent) now reply end.old end.new) reply end.old end.new) }
{
    if !end.is_started() {
        return Ok(AssocReply::NoSuch);
    }
    let Some(sent) = packet_for(packets, left, number) else {
        return Ok(AssocReply::NoSuch);
    };
    match end.handle_input(now, sent.bytes.as_slice()) {
        Ok(()) => Ok(AssocReply::Done),
        Err(error) => Err(error),
    }
}
