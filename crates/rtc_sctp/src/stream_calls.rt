//! The opening and closing of streams from here.
ghost use Rattle.std.specs.Prelude.{◌≡◌, ◌≤◌, ◌<◌, true, is_some, IsSome, Some, Ok, length, vec_len};
ghost use Rattle.rtc_sctp_entries.specs.Entries.{Ascend, entry_place, new_entry, marked_entry};
ghost use Rattle.rtc_sctp_entries.specs.declared.stream_entry_state.StreamEntryState.TheVariants.{AwaitOpen, Open};
ghost use Rattle.rtc_sctp.specs.StreamCalls.{can_take as CanTake, TakesConfig, OpensAwaiting, OpensOver};
ghost use Rattle.rtc_sctp.specs.StreamCalls.{OpensAt, OpensStream, MarksAt};
ghost use Rattle.rtc_sctp.specs.StreamCalls.{EndsStream, EndsIf, ClosesAt, ClosesDataStream, SetsThreshold, SetsThresholdAt};

use crate::streams::RtcSctp;
use crate::{BufferedThresholdConfig, StreamEntry, StreamEntryState};
use rtc_parts::Association;
use rtc_sctp_entries::entries::{place_of, put_entry};
use rtc_sctp_entries::resets::note_reset;
use rtc_sctp_entries::{Asked, part};
use rtc_wire::ChannelConfig;
use std::alloc::AllocError;

fn opened_here(id: u16, config: ChannelConfig) -> StreamEntry
    ensures { result ≡ new_entry id AwaitOpen (Some config) }
{
    StreamEntry {
        id,
        state: StreamEntryState::AwaitOpen,
        config: Some(config),
        marked: false,
        threshold: BufferedThresholdConfig::Unconfigured,
        refused: None,
        generation: None,
    }
}

// Whether a stream that the other end opened can be open by a config.
fn can_take<S: Association>(association: &S, id: u16, config: &ChannelConfig) -> bool
    ensures { result ≡ CanTake S.association association.now id config.now }
{
    config.negotiated.is_some() && (association.is_started() && association.has_stream(id))
}

// A stream that the other end opened is open by a config.
fn open_by_config(entry: &mut StreamEntry, config: ChannelConfig)
    ensures { entry.new ≡ record entry.old { config = Some config; state = Open } }
{
    entry.config = Some(config);
    entry.state = StreamEntryState::Open;
}

// This end gave the config of a stream that the other end opened.
fn take_config<S: Association>(
    association: &mut S,
    entry: &mut StreamEntry,
    config: ChannelConfig,
) -> Result<(), AllocError>
    ensures { TakesConfig S.association config association.old entry.old result association.new entry.new }
{
    if can_take(association, entry.id, &config) {
        return match part::set_reliability(association, entry.id, &config) {
            Asked::Done => {
                open_by_config(entry, config);
                Ok(())
            }
            Asked::Refused => {
                entry.marked = true;
                Ok(())
            }
            Asked::OutOfMemory => Err(AllocError),
        };
    }
    entry.marked = true;
    Ok(())
}

fn mark_here(entry: &mut StreamEntry) -> Result<(), AllocError>
    ensures ok { result ≡ Ok tt }
    ensures marked { entry.new ≡ marked_entry entry.old }
{
    entry.marked = true;
    Ok(())
}

// A stream that waits for its config is to be opened. One that has a config is to be closed already.
fn open_awaiting<S: Association>(
    association: &mut S,
    entry: &mut StreamEntry,
    config: ChannelConfig,
) -> Result<(), AllocError>
    ensures { OpensAwaiting S.association (is_some entry.old.config) config association.old entry.old
        result association.new entry.new }
{
    if entry.config.is_some() {
        return mark_here(entry);
    }
    take_config(association, entry, config)
}

// A stream that has an entry is to be opened.
fn open_over<S: Association>(
    association: &mut S,
    entry: &mut StreamEntry,
    config: ChannelConfig,
) -> Result<(), AllocError>
    ensures { OpensOver S.association entry.old.state config association.old entry.old result association.new entry.new }
{
    match entry.state {
        StreamEntryState::AwaitConfig => open_awaiting(association, entry, config),
        StreamEntryState::AwaitOpen => mark_here(entry),
        StreamEntryState::AwaitDcepAck => mark_here(entry),
        StreamEntryState::Open => mark_here(entry),
        StreamEntryState::Closed => mark_here(entry),
    }
}

// Closes a stream of the association.
fn end_stream<S: Association>(
    association: &mut S,
    id: u16,
    resets: &mut Vec<u16>,
) -> Result<(), AllocError>
    requires { S.association.started association.old ≡ true }
    ensures { EndsStream S.association id association.old resets.old.items result association.new resets.new.items }
{
    resets.reserve(1)?;
    match part::end(association, id) {
        Asked::Done => {
            note_reset(id, resets);
            Ok(())
        }
        Asked::Refused => Ok(()),
        Asked::OutOfMemory => Err(AllocError),
    }
}

// Ends a stream of an association that was started.
fn end_if_started<S: Association>(
    association: &mut S,
    id: u16,
    resets: &mut Vec<u16>,
) -> Result<(), AllocError>
    ensures { EndsIf S.association (S.association.started association.old) id association.old resets.old.items
        result association.new resets.new.items }
{
    if association.is_started() {
        return end_stream(association, id, resets);
    }
    Ok(())
}

fn mark_entry(entry: &mut StreamEntry)
    ensures { entry.new ≡ marked_entry entry.old }
{
    entry.marked = true;
}

// Marks the entry at a place.
fn mark_at(entries: &mut Vec<StreamEntry>, place: usize)
    requires { place < vec_len entries.old }
    ensures { MarksAt place entries.old.items entries.new.items }
{
    mark_entry(&mut entries[place]);
}

// Asks for the threshold of the entry at a place.
fn set_threshold_at(entries: &mut Vec<StreamEntry>, place: usize, n: usize)
    requires { place < vec_len entries.old }
    ensures { SetsThresholdAt n place entries.old.items entries.new.items }
{
    entries[place].threshold.set(n);
}

fn open_in<S: Association>(
    association: &mut S,
    entries: &mut Vec<StreamEntry>,
    id: u16,
    config: ChannelConfig,
) -> Result<(), AllocError>
    requires { Ascend entries.old.items }
    ensures { OpensAt S.association (entry_place id entries.old.items) id config association.old entries.old.items
        result association.new entries.new.items }
{
    match place_of(entries.as_slice(), id) {
        None => put_entry(entries, opened_here(id, config)),
        Some(place) => open_over(association, &mut entries[place], config),
    }
}

fn close_in<S: Association>(
    association: &mut S,
    entries: &mut Vec<StreamEntry>,
    resets: &mut Vec<u16>,
    id: u16,
) -> Result<(), AllocError>
    requires { Ascend entries.old.items }
    ensures { ClosesAt S.association (entry_place id entries.old.items) id
        association.old entries.old.items resets.old.items result association.new entries.new.items resets.new.items }
{
    match place_of(entries.as_slice(), id) {
        None => Ok(()),
        Some(place) => {
            mark_at(entries, place);
            end_if_started(association, id, resets)
        }
    }
}

impl<S: Association> RtcSctp<S> {
    /// Opens a stream with a config. One that has an entry already is closed, but for one that the other end opened and
    /// that has no config yet, which an out-of-band config opens.
    pub fn open_stream(&mut self, id: u16, config: ChannelConfig) -> Result<(), AllocError>
        requires label { length config.label ≤ 65535 }
        requires protocol { length config.protocol ≤ 65535 }
        ensures { OpensStream S.association id config self.old result self.new }
    {
        self.agenda.note(id);
        self.rests = false;
        open_in(&mut self.association, &mut self.entries, id, config)
    }

    /// Closes a stream that has an entry.
    pub fn close_stream(&mut self, id: u16) -> Result<(), AllocError>
        ensures { ClosesDataStream S.association id self.old result self.new }
    {
        self.agenda.note(id);
        self.rests = false;
        close_in(
            &mut self.association,
            &mut self.entries,
            &mut self.resets,
            id,
        )
    }

    /// Asks for `BufferedAmountLow` once at most `n` bytes of the stream are not acknowledged.
    pub fn set_buffered_amount_low_threshold(&mut self, id: u16, n: usize)
        requires { IsSome (entry_place id self.old.entries) }
        ensures { SetsThreshold S n (entry_place id self.old.entries) self.old self.new }
    {
        match place_of(self.entries.as_slice(), id) {
            None => {}
            Some(place) => {
                set_threshold_at(&mut self.entries, place, n);
                self.agenda.note(id);
                self.rests = false;
            }
        }
    }
}
