//! What a poll does with one stream in use.
ghost use Rattle.std.specs.Prelude.{◌≡◌, true, ℕ, List};
ghost use Rattle.rtc_sctp_entries.specs.Visits.{turn, ReadBy, ReadsEntry, HandsThreshold, AttendsBy, Attends, Visits};
ghost use Rattle.rtc_sctp_entries.specs.Visits.{is_entry_there as IsEntryThere};

use crate::asked::Asked;
use crate::closing::{close_entry, mark};
use crate::entries::fits_generation;
use crate::heard::Heard;
use crate::message::take_message;
use crate::met::Met;
use crate::opens::open_entry;
use crate::{BufferedThresholdConfig, StreamEntry, StreamEntryState, part};
use rtc_parts::Association;
use rtc_wire::Moment;
use std::alloc::Global;

// Takes what was read of an entry's stream. A refused reading marks the entry.
fn take_heard<S: Association>(
    alloc: Global,
    heard: Heard,
    association: &mut S,
    entry: &mut StreamEntry,
    resets: &mut Vec<u16>,
) -> Met
    requires { S.association.started association.old ≡ true }
    ensures { ReadBy S.association heard (turn association.old entry.old resets.old.items)
        result (turn association.new entry.new resets.new.items) }
{
    match heard {
        Heard::Nothing => Met::Nothing,
        Heard::Message(ppi, bytes) => {
            take_message(alloc, ppi, bytes, association, entry, resets)
        }
        Heard::Refused => mark(entry),
        Heard::OutOfMemory => Met::OutOfMemory,
    }
}

// Reads one message of an entry's stream.
fn read_entry<S: Association>(
    alloc: Global,
    association: &mut S,
    entry: &mut StreamEntry,
    resets: &mut Vec<u16>,
) -> Met
    requires { S.association.started association.old ≡ true }
    ensures { ReadsEntry S.association (turn association.old entry.old resets.old.items)
        result (turn association.new entry.new resets.new.items) }
{
    let heard = part::read(association, entry.id);
    take_heard(alloc, heard, association, entry, resets)
}

// Passes a threshold on once, refused or not.
fn hand_threshold<S: Association>(n: usize, association: &mut S, entry: &mut StreamEntry) -> Met
    requires { S.association.started association.old ≡ true }
    ensures { (resets : List ℕ) → HandsThreshold S.association n (turn association.old entry.old resets)
        result (turn association.new entry.new resets) }
{
    match part::hand_threshold(association, entry.id, n) {
        Asked::Done => {
            entry.threshold = BufferedThresholdConfig::Configured(n);
            Met::Again
        }
        Asked::Refused => {
            entry.threshold = BufferedThresholdConfig::Configured(n);
            Met::Again
        }
        Asked::OutOfMemory => Met::OutOfMemory,
    }
}

fn attend_unmarked<S: Association>(
    alloc: Global,
    association: &mut S,
    entry: &mut StreamEntry,
    resets: &mut Vec<u16>,
) -> Met
    requires { S.association.started association.old ≡ true }
    ensures { AttendsBy S.association entry.old.threshold (turn association.old entry.old resets.old.items)
        result (turn association.new entry.new resets.new.items) }
{
    match entry.threshold {
        BufferedThresholdConfig::Desired(n) => hand_threshold(n, association, entry),
        BufferedThresholdConfig::Unconfigured => read_entry(alloc, association, entry, resets),
        BufferedThresholdConfig::Configured(_) => read_entry(alloc, association, entry, resets),
    }
}

fn is_marked(entry: &StreamEntry) -> bool
    ensures { result ≡ entry.now.marked }
{
    entry.marked
}

// Whether the stream of an entry is there, in the generation that the entry keeps.
fn is_entry_there<S: Association>(association: &S, entry: &StreamEntry) -> bool
    ensures { result ≡ IsEntryThere S.association association.now entry.now }
{
    association.has_stream(entry.id)
        && fits_generation(entry.generation, association.generation(entry.id))
}

// Closes, marks or reads an entry past its opening.
fn attend<S: Association>(
    alloc: Global,
    association: &mut S,
    entry: &mut StreamEntry,
    resets: &mut Vec<u16>,
) -> Met
    requires { S.association.started association.old ≡ true }
    ensures { Attends S.association (turn association.old entry.old resets.old.items)
        result (turn association.new entry.new resets.new.items) }
{
    if is_marked(entry) {
        return close_entry(association, entry, resets);
    }
    if is_entry_there(association, entry) {
        return attend_unmarked(alloc, association, entry, resets);
    }
    mark(entry)
}

/// Does what there is to do with one stream in use.
pub fn visit<S: Association>(
    alloc: Global,
    now: Moment,
    association: &mut S,
    entry: &mut StreamEntry,
    resets: &mut Vec<u16>,
) -> Met
    requires { S.association.started association.old ≡ true }
    ensures { Visits S.association now (turn association.old entry.old resets.old.items)
        result (turn association.new entry.new resets.new.items) }
{
    match entry.state {
        StreamEntryState::AwaitOpen => open_entry(alloc, now, association, entry, resets),
        StreamEntryState::AwaitConfig => attend(alloc, association, entry, resets),
        StreamEntryState::AwaitDcepAck => attend(alloc, association, entry, resets),
        StreamEntryState::Open => attend(alloc, association, entry, resets),
        StreamEntryState::Closed => Met::Nothing,
    }
}
