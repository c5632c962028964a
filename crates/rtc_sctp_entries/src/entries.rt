//! Lists of streams in use, in order of their numbers.
ghost use Rattle.std.specs.Prelude.{◌≡◌, ◌<◌, ◌≤◌, ℕ, length, slice_index_or, OnOk, OnErr, IsOk, MatchOption, None, Some, vec_len};
ghost use Rattle.std.specs.Prelude.{vec_capacity};
ghost use Rattle.rtc_sctp_entries.specs.declared.stream_entry.StreamEntry.{StreamEntry};
ghost use Rattle.rtc_sctp_entries.specs.Entries.{Ascend, entry_place, new_place, with_entry, has_open as HasOpen};
ghost use Rattle.rtc_sctp_entries.specs.Entries.{stream_config, is_retrying as IsRetrying};
ghost use Rattle.rtc_sctp_entries.specs.Entries.{stream_generation, fits_generation as FitsGeneration};
ghost use Rattle.rtc_sctp_entries.specs.Entries.{is_open_state as IsOpenState};
ghost use Rattle.rtc_sctp_entries.specs.Entries.{unclosed, is_closed_state as IsClosedState};

use crate::{StreamEntry, StreamEntryState};
use rtc_wire::ChannelConfig;
use std::alloc::AllocError;

fn is_open_state(state: StreamEntryState) -> bool
    ensures { result ≡ IsOpenState state }
{
    match state {
        StreamEntryState::AwaitOpen => false,
        StreamEntryState::AwaitConfig => false,
        StreamEntryState::AwaitDcepAck => false,
        StreamEntryState::Open => true,
        StreamEntryState::Closed => false,
    }
}

/// Whether a state is the last one.
pub fn is_closed_state(state: StreamEntryState) -> bool
    ensures { result ≡ IsClosedState state }
{
    match state {
        StreamEntryState::AwaitOpen => false,
        StreamEntryState::AwaitConfig => false,
        StreamEntryState::AwaitDcepAck => false,
        StreamEntryState::Open => false,
        StreamEntryState::Closed => true,
    }
}

/// Whether the opening of a stream is tried again.
pub fn is_retrying(entry: &StreamEntry) -> bool
    ensures { result ≡ IsRetrying entry.now }
{
    match entry.state {
        StreamEntryState::AwaitOpen => entry.refused.is_some(),
        StreamEntryState::AwaitConfig => false,
        StreamEntryState::AwaitDcepAck => false,
        StreamEntryState::Open => false,
        StreamEntryState::Closed => false,
    }
}

// The place before which the entries have lower numbers.
fn place_from(entries: &[StreamEntry], id: u16) -> usize
    requires { Ascend entries.now }
    ensures bound { result ≤ length entries.now }
    ensures before { (k : ℕ) (d : StreamEntry) → k < result → (slice_index_or entries.now k d).id < id }
    ensures behind { (k : ℕ) (d : StreamEntry) → result ≤ k → k < length entries.now
        → id ≤ (slice_index_or entries.now k d).id }
{
    entries.partition_point(|own| own.id < id)
}

/// The place of a stream's entry, if there is one.
pub fn place_of(entries: &[StreamEntry], id: u16) -> Option<usize>
    requires { Ascend entries.now }
    ensures { result ≡ entry_place id entries.now }
{
    let place = place_from(entries, id);
    if entries.len() <= place {
        return None;
    }
    if entries[place].id == id {
        return Some(place);
    }
    None
}

// The place at which the entry of a stream is inserted.
fn place_for(entries: &[StreamEntry], id: u16) -> usize
    requires { Ascend entries.now }
    ensures place { result ≡ new_place id entries.now }
    ensures bound { result ≤ length entries.now }
{
    entries.partition_point(|own| own.id <= id)
}

/// Puts in the entry of a stream.
pub fn put_entry(entries: &mut Vec<StreamEntry>, entry: StreamEntry) -> Result<(), AllocError>
    requires { Ascend entries.old.items }
    ensures ok { OnOk result (entries.new.items ≡ with_entry entry entries.old.items) }
    ensures err { OnErr result (entries.new.items ≡ entries.old.items) }
    ensures room { vec_len entries.old < vec_capacity entries.old → IsOk result }
{
    let place = place_for(entries.as_slice(), entry.id);
    entries.insert(place, entry)?;
    Ok(())
}

/// Whether the entry of a stream is open.
pub fn has_open(entries: &[StreamEntry], id: u16) -> bool
    requires { Ascend entries.now }
    ensures { result ≡ HasOpen id entries.now }
{
    let place = place_from(entries, id);
    if entries.len() <= place {
        return false;
    }
    if entries[place].id == id {
        return is_open_state(entries[place].state);
    }
    false
}

/// Drops the closed entries.
pub fn drop_closed(entries: &mut Vec<StreamEntry>)
    ensures { entries.new.items ≡ unclosed entries.old.items }
{
    entries.retain(|own| !is_closed_state(own.state));
}

/// The config of a stream's entry.
pub fn config_of(entries: &[StreamEntry], id: u16) -> Option<&ChannelConfig>
    requires { Ascend entries.now }
    ensures { MatchOption result (stream_config id entries.now ≡ None) (λ config. stream_config id entries.now ≡ Some config.now) }
{
    let place = place_from(entries, id);
    if entries.len() <= place {
        return None;
    }
    if entries[place].id == id {
        return entries[place].config.as_ref();
    }
    None
}

/// The generation that a stream's entry keeps.
pub fn generation_of(entries: &[StreamEntry], id: u16) -> Option<u64>
    requires { Ascend entries.now }
    ensures { result ≡ stream_generation id entries.now }
{
    let place = place_from(entries, id);
    if entries.len() <= place {
        return None;
    }
    if entries[place].id == id {
        return entries[place].generation;
    }
    None
}

/// Whether a generation is the kept one, if one is kept.
pub fn fits_generation(own: Option<u64>, generation: u64) -> bool
    ensures { result ≡ FitsGeneration own generation }
{
    match own {
        Some(own) => own == generation,
        None => true,
    }
}

/// Puts in the entry of a stream, for which there is room.
pub fn put_reserved(entries: &mut Vec<StreamEntry>, entry: StreamEntry)
    requires ascend { Ascend entries.old.items }
    requires room { vec_len entries.old < vec_capacity entries.old }
    ensures { entries.new.items ≡ with_entry entry entries.old.items }
{
    if put_entry(entries, entry).is_err() {
        unreachable!();
    }
}
