//! The opening of streams (RFC 8832, section 6).
ghost use Rattle.std.specs.Prelude.{◌≡◌, ◌≤◌, true, length, IfOk};
ghost use Rattle.rtc_wire.specs.ChannelConfig.{open_of};
ghost use Rattle.rtc_wire.specs.DcepOpen.{open_bytes};
ghost use Rattle.rtc_sctp_entries.specs.Entries.{config_or_fresh, is_out_of_band as IsOutOfBand, is_short_entry};
ghost use Rattle.rtc_sctp_entries.specs.Part.{AsksReliability};
ghost use Rattle.rtc_sctp_entries.specs.Visits.{turn, is_opening_over, Settles, Announces, AnnouncesIf, Begins};
ghost use Rattle.rtc_sctp_entries.specs.Visits.{BegunAs, Retries, is_adopted as IsAdopted, AdoptedIf, OpensEntry};

use crate::asked::Asked;
use crate::closing::close_entry;
use crate::met::Met;
use crate::opening::Opening;
use crate::resets::has_reset;
use crate::{SctpEvent, StreamEntry, StreamEntryState, part};
use rtc_parts::{Association, Ppi};
use rtc_wire::{Bytes, ChannelConfig, DcepOpen, Moment, STREAM_OPEN_TIMEOUT, Text, TryCopy};
use std::alloc::{AllocError, Global};

/// Whether the stream was negotiated out-of-band.
pub fn is_out_of_band(entry: &StreamEntry) -> bool
    ensures { result ≡ IsOutOfBand entry.now }
{
    match &entry.config {
        Some(config) => config.negotiated.is_some(),
        None => false,
    }
}

fn label_of(alloc: Global, entry: &StreamEntry) -> Result<Text, AllocError>
    ensures { IfOk result (λ label. label ≡ (config_or_fresh entry.now.config).label) }
{
    match &entry.config {
        Some(config) => config.label.copy(),
        None => Ok(Text::new(String::new(alloc))),
    }
}

// Whether the texts of an entry's config fit an open message.
fn has_short_texts(entry: &StreamEntry) -> bool
    ensures { result ≡ is_short_entry entry.now }
{
    match &entry.config {
        Some(config) => config.fits_open_message(),
        None => true,
    }
}

fn open_message_of(alloc: Global, config: &ChannelConfig) -> Result<Bytes, AllocError>
    requires label { length config.now.label ≤ 65535 }
    requires protocol { length config.now.protocol ≤ 65535 }
    ensures { IfOk result (λ bytes. bytes ≡ open_bytes (open_of config.now)) }
{
    let message = DcepOpen::from_config(alloc, config)?;
    let mut bytes = vec![in alloc; 0u8; message.marshal_len()]?;
    message.marshal_to(bytes.as_mut_slice());
    Ok(Bytes::new(bytes))
}

// The open message of an entry, in a buffer of its length.
fn open_message(alloc: Global, entry: &StreamEntry) -> Result<Bytes, AllocError>
    requires { is_short_entry entry.now ≡ true }
    ensures { IfOk result (λ bytes. bytes ≡ open_bytes (open_of (config_or_fresh entry.now.config))) }
{
    match &entry.config {
        Some(config) => open_message_of(alloc, config),
        None => open_message_of(alloc, &ChannelConfig::new(alloc)),
    }
}

/// Gives the stream of an entry the reliability of its config.
pub fn set_reliability<S: Association>(
    alloc: Global,
    association: &mut S,
    entry: &StreamEntry,
) -> Asked
    requires { S.association.started association.old ≡ true }
    ensures asks { AsksReliability S.association association.old entry.now.id (config_or_fresh entry.now.config) result association.new }
    ensures started { S.association.started association.new ≡ true }
{
    match &entry.config {
        Some(config) => part::set_reliability(association, entry.id, config),
        None => part::set_reliability(association, entry.id, &ChannelConfig::new(alloc)),
    }
}

/// The entry is open with the label of its config.
pub fn settle(alloc: Global, entry: &mut StreamEntry) -> Met
    ensures { Settles entry.old result entry.new }
{
    match label_of(alloc, entry) {
        Ok(label) => {
            entry.state = StreamEntryState::Open;
            Met::Output(SctpEvent::Open {
                id: entry.id,
                label,
            })
        }
        Err(_) => Met::OutOfMemory,
    }
}

// Writes the open message of an entry.
fn announce<S: Association>(
    alloc: Global,
    association: &mut S,
    entry: &mut StreamEntry,
    resets: &mut Vec<u16>,
) -> Met
    requires started { S.association.started association.old ≡ true }
    requires short { is_short_entry entry.old ≡ true }
    ensures { Announces S.association (turn association.old entry.old resets.old.items)
        result (turn association.new entry.new resets.new.items) }
{
    let Ok(bytes) = open_message(alloc, entry) else {
        return Met::OutOfMemory;
    };
    match part::write(association, entry.id, Ppi::Dcep, bytes.as_slice()) {
        Asked::Done => {
            entry.generation = Some(association.generation(entry.id));
            entry.state = StreamEntryState::AwaitDcepAck;
            Met::Again
        }
        Asked::Refused => close_entry(association, entry, resets),
        Asked::OutOfMemory => Met::OutOfMemory,
    }
}

// Announces an entry whose texts fit an open message, and closes another one.
fn announce_short<S: Association>(
    alloc: Global,
    association: &mut S,
    entry: &mut StreamEntry,
    resets: &mut Vec<u16>,
) -> Met
    requires { S.association.started association.old ≡ true }
    ensures { AnnouncesIf S.association (is_short_entry entry.old) (turn association.old entry.old resets.old.items)
        result (turn association.new entry.new resets.new.items) }
{
    if has_short_texts(entry) {
        return announce(alloc, association, entry, resets);
    }
    close_entry(association, entry, resets)
}

// Out-of-band the entry is open, in-band its open message is written.
fn begin_by_band<S: Association>(
    alloc: Global,
    association: &mut S,
    entry: &mut StreamEntry,
    resets: &mut Vec<u16>,
) -> Met
    requires { S.association.started association.old ≡ true }
    ensures { BegunAs S.association (IsOutOfBand entry.old) (turn association.old entry.old resets.old.items)
        result (turn association.new entry.new resets.new.items) }
{
    if is_out_of_band(entry) {
        return settle(alloc, entry);
    }
    announce_short(alloc, association, entry, resets)
}

// A stream that is there gets the reliability of its config, and is begun.
fn begin<S: Association>(
    alloc: Global,
    association: &mut S,
    entry: &mut StreamEntry,
    resets: &mut Vec<u16>,
) -> Met
    requires { S.association.started association.old ≡ true }
    ensures { Begins S.association (turn association.old entry.old resets.old.items)
        result (turn association.new entry.new resets.new.items) }
{
    match set_reliability(alloc, association, entry) {
        Asked::Done => begin_by_band(alloc, association, entry, resets),
        Asked::Refused => close_entry(association, entry, resets),
        Asked::OutOfMemory => Met::OutOfMemory,
    }
}

// Whether an opening that was refused first at a moment is given up.
fn is_timed_out(first: Moment, now: Moment) -> bool
    ensures { result ≡ is_opening_over first now }
{
    first < now && first.plus(STREAM_OPEN_TIMEOUT) <= now
}

// An opening is refused for now.
fn retry<S: Association>(
    now: Moment,
    association: &mut S,
    entry: &mut StreamEntry,
    resets: &mut Vec<u16>,
) -> Met
    requires { S.association.started association.old ≡ true }
    ensures { Retries S.association now (turn association.old entry.old resets.old.items)
        result (turn association.new entry.new resets.new.items) }
{
    let Some(first) = entry.refused else {
        entry.refused = Some(now);
        return Met::Nothing;
    };
    if is_timed_out(first, now) {
        return close_entry(association, entry, resets);
    }
    Met::Nothing
}

// Whether a stream that is there is taken for the entry's own.
fn is_adopted<S: Association>(association: &S, entry: &StreamEntry, resets: &[u16]) -> bool
    ensures { result ≡ IsAdopted S.association (turn association.now entry.now resets.now) }
{
    is_out_of_band(entry) && !association.is_stale(entry.id) && !has_reset(entry.id, resets)
}

// The stream of an entry to be opened is there.
fn adopt<S: Association>(
    alloc: Global,
    now: Moment,
    association: &mut S,
    entry: &mut StreamEntry,
    resets: &mut Vec<u16>,
) -> Met
    requires { S.association.started association.old ≡ true }
    ensures { AdoptedIf S.association (IsAdopted S.association (turn association.old entry.old resets.old.items)) now
        (turn association.old entry.old resets.old.items) result (turn association.new entry.new resets.new.items) }
{
    if is_adopted(association, entry, resets.as_slice()) {
        return begin(alloc, association, entry, resets);
    }
    retry(now, association, entry, resets)
}

/// Opens the stream of an entry.
pub fn open_entry<S: Association>(
    alloc: Global,
    now: Moment,
    association: &mut S,
    entry: &mut StreamEntry,
    resets: &mut Vec<u16>,
) -> Met
    requires { S.association.started association.old ≡ true }
    ensures { OpensEntry S.association now (turn association.old entry.old resets.old.items)
        result (turn association.new entry.new resets.new.items) }
{
    match part::open(association, entry.id) {
        Opening::Done => begin(alloc, association, entry, resets),
        Opening::Exists => adopt(alloc, now, association, entry, resets),
        Opening::Pending => retry(now, association, entry, resets),
        Opening::Refused => close_entry(association, entry, resets),
        Opening::OutOfMemory => Met::OutOfMemory,
    }
}
