//! Messages of the other end.
ghost use Rattle.std.specs.Prelude.{◌≡◌, true, false};
ghost use Rattle.rtc_sctp_entries.specs.declared.met.Met.TheVariants.{Output};
ghost use Rattle.rtc_sctp_entries.specs.declared.sctp_event.SctpEvent.TheVariants.{Data};
ghost use Rattle.rtc_sctp_entries.specs.Visits.{turn, Acknowledges, TakesUp, TakesOpen, TakesAck, TakesDcep};
ghost use Rattle.rtc_sctp_entries.specs.Visits.{TakesStreamMessage, ReadsOpen, given_config};

use crate::asked::Asked;
use crate::closing::{close_entry, mark};
use crate::met::Met;
use crate::opens::{set_reliability, settle};
use crate::read_message::ReadMessage;
use crate::{SctpEvent, StreamEntry, StreamEntryState, part};
use rtc_parts::{Association, Ppi};
use rtc_wire::{Bytes, ChannelConfig, DcepAck, DcepError, DcepOpen, Text};
use std::alloc::Global;

// Writes the acknowledgement of an open message, after which the entry is open.
fn acknowledge<S: Association>(
    label: Text,
    association: &mut S,
    entry: &mut StreamEntry,
    resets: &mut Vec<u16>,
) -> Met
    requires { S.association.started association.old ≡ true }
    ensures { Acknowledges S.association label (turn association.old entry.old resets.old.items)
        result (turn association.new entry.new resets.new.items) }
{
    let mut bytes = [0u8];
    DcepAck.marshal_to(&mut bytes);
    match part::write(association, entry.id, Ppi::Dcep, &bytes) {
        Asked::Done => {
            entry.generation = Some(association.generation(entry.id));
            entry.state = StreamEntryState::Open;
            Met::Output(SctpEvent::Open {
                id: entry.id,
                label,
            })
        }
        Asked::Refused => close_entry(association, entry, resets),
        Asked::OutOfMemory => Met::OutOfMemory,
    }
}

// The entry takes its config from the other end: the stream gets its reliability.
fn take_up<S: Association>(
    alloc: Global,
    label: Text,
    association: &mut S,
    entry: &mut StreamEntry,
    resets: &mut Vec<u16>,
) -> Met
    requires { S.association.started association.old ≡ true }
    ensures { TakesUp S.association label (turn association.old entry.old resets.old.items)
        result (turn association.new entry.new resets.new.items) }
{
    match set_reliability(alloc, association, entry) {
        Asked::Done => acknowledge(label, association, entry, resets),
        Asked::Refused => mark(entry),
        Asked::OutOfMemory => Met::OutOfMemory,
    }
}

fn read_open(alloc: Global, bytes: &[u8]) -> ReadMessage
    ensures { ReadsOpen bytes.now result }
{
    match DcepOpen::read(alloc, bytes) {
        Ok(message) => match ChannelConfig::from_open(alloc, &message) {
            Ok(config) => ReadMessage::Open(message.label, config),
            Err(_) => ReadMessage::OutOfMemory,
        },
        Err(DcepError::Alloc) => ReadMessage::OutOfMemory,
        Err(DcepError::DcepOpenTooSmall) => ReadMessage::Malformed,
        Err(DcepError::DcepIncorrectMessageType) => ReadMessage::Malformed,
        Err(DcepError::DcepBadUtf8) => ReadMessage::Malformed,
    }
}

// The open message of the other end gives an entry its config, if it has none.
fn give_config(entry: &mut StreamEntry, config: ChannelConfig)
    ensures { entry.new ≡ record entry.old { config = given_config entry.old.config config } }
{
    match &entry.config {
        None => entry.config = Some(config),
        Some(_) => {}
    }
}

// Takes an open message.
fn take_open<S: Association>(
    alloc: Global,
    bytes: &[u8],
    association: &mut S,
    entry: &mut StreamEntry,
    resets: &mut Vec<u16>,
) -> Met
    requires { S.association.started association.old ≡ true }
    ensures { TakesOpen S.association bytes.now (turn association.old entry.old resets.old.items)
        result (turn association.new entry.new resets.new.items) }
{
    match read_open(alloc, bytes) {
        ReadMessage::Open(label, config) => {
            give_config(entry, config);
            take_up(alloc, label, association, entry, resets)
        }
        ReadMessage::Malformed => mark(entry),
        ReadMessage::OutOfMemory => Met::OutOfMemory,
    }
}

// Takes the acknowledgement of an open message.
fn take_ack(alloc: Global, bytes: &[u8], entry: &mut StreamEntry) -> Met
    ensures { TakesAck bytes.now entry.old result entry.new }
{
    match DcepAck::read(bytes) {
        Ok(_) => settle(alloc, entry),
        Err(_) => mark(entry),
    }
}

// Takes a message that opens a channel or acknowledges it.
fn take_dcep<S: Association>(
    alloc: Global,
    bytes: &[u8],
    association: &mut S,
    entry: &mut StreamEntry,
    resets: &mut Vec<u16>,
) -> Met
    requires { S.association.started association.old ≡ true }
    ensures { TakesDcep S.association entry.old.state bytes.now (turn association.old entry.old resets.old.items)
        result (turn association.new entry.new resets.new.items) }
{
    match entry.state {
        StreamEntryState::AwaitConfig => take_open(alloc, bytes, association, entry, resets),
        StreamEntryState::AwaitDcepAck => take_ack(alloc, bytes, entry),
        StreamEntryState::AwaitOpen => mark(entry),
        StreamEntryState::Open => mark(entry),
        StreamEntryState::Closed => mark(entry),
    }
}

fn give_text(id: u16, bytes: Bytes) -> Met
    ensures { result ≡ Output (Data id false bytes) }
{
    Met::Output(SctpEvent::Data {
        id,
        binary: false,
        bytes,
    })
}

fn give_binary(id: u16, bytes: Bytes) -> Met
    ensures { result ≡ Output (Data id true bytes) }
{
    Met::Output(SctpEvent::Data {
        id,
        binary: true,
        bytes,
    })
}

/// Takes a message by its identifier.
pub fn take_message<S: Association>(
    alloc: Global,
    ppi: Ppi,
    bytes: Bytes,
    association: &mut S,
    entry: &mut StreamEntry,
    resets: &mut Vec<u16>,
) -> Met
    requires { S.association.started association.old ≡ true }
    ensures { TakesStreamMessage S.association ppi bytes (turn association.old entry.old resets.old.items)
        result (turn association.new entry.new resets.new.items) }
{
    match ppi {
        Ppi::Dcep => take_dcep(alloc, bytes.as_slice(), association, entry, resets),
        Ppi::Text => give_text(entry.id, bytes),
        Ppi::Binary => give_binary(entry.id, bytes),
        Ppi::EmptyText => give_text(entry.id, Bytes::new(Vec::new(alloc))),
        Ppi::EmptyBinary => give_binary(entry.id, Bytes::new(Vec::new(alloc))),
        Ppi::Other(_) => mark(entry),
    }
}
