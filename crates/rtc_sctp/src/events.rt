//! What the events of an association do.
ghost use Rattle.std.specs.Prelude.{◌≡◌, ◌<◌, ◌++◌, ◌∷◌, ℕ, [], true, false, None, vec_len, vec_capacity};
ghost use Rattle.std.specs.VecDeque.{deque_len, deque_capacity};
ghost use Rattle.rtc_sctp_values.specs.StreamIds.{has_id};
ghost use Rattle.rtc_sctp_entries.specs.declared.stream_entry_state.StreamEntryState.TheVariants.{AwaitConfig};
ghost use Rattle.rtc_sctp_entries.specs.Entries.{Ascend, entry_place, new_entry as NewEntry, without_reset};
ghost use Rattle.rtc_sctp_entries.specs.declared.met.Met.TheVariants.{Again};
ghost use Rattle.rtc_sctp.specs.Polls.{with_expected, finished_entry, FinishesAt, book, event_met, AfterEvent};
ghost use Rattle.rtc_sctp.specs.Rest.{IsTouched};

use crate::agenda::Agenda;
use crate::{BufferedThresholdConfig, RtcSctpState, SctpEvent, StreamEntry, StreamEntryState};
use rtc_parts::AssocEvent;
use rtc_sctp_entries::Met;
use rtc_sctp_entries::entries::{place_of, put_reserved};
use rtc_sctp_entries::resets::{drop_reset, note_reset};
use std::collections::VecDeque;

fn opened_there(id: u16) -> StreamEntry
    ensures { result ≡ NewEntry id AwaitConfig None }
{
    StreamEntry {
        id,
        state: StreamEntryState::AwaitConfig,
        config: None,
        marked: false,
        threshold: BufferedThresholdConfig::Unconfigured,
        refused: None,
        generation: None,
    }
}

/// The other end uses a stream, for whose entry there is room.
pub fn expect_entry(entries: &mut Vec<StreamEntry>, id: u16)
    requires ascend { Ascend entries.old.items }
    requires room { vec_len entries.old < vec_capacity entries.old }
    ensures { entries.new.items ≡ with_expected id entries.old.items }
{
    if place_of(entries.as_slice(), id).is_some() {
        return;
    }
    put_reserved(entries, opened_there(id));
}

fn finish_entry(entry: &mut StreamEntry)
    ensures { entry.new ≡ finished_entry entry.old }
{
    match entry.state {
        StreamEntryState::AwaitOpen => {}
        StreamEntryState::AwaitConfig => entry.marked = true,
        StreamEntryState::AwaitDcepAck => entry.marked = true,
        StreamEntryState::Open => entry.marked = true,
        StreamEntryState::Closed => entry.marked = true,
    }
}

/// The other end closed a stream.
pub fn finish_stream(entries: &mut Vec<StreamEntry>, id: u16)
    requires { Ascend entries.old.items }
    ensures { FinishesAt (entry_place id entries.old.items) entries.old.items entries.new.items }
{
    match place_of(entries.as_slice(), id) {
        None => {}
        Some(place) => finish_entry(&mut entries[place]),
    }
}

/// Makes room for what an event may add.
pub fn make_room(
    entries: &mut Vec<StreamEntry>,
    resets: &mut Vec<u16>,
    completed: &mut VecDeque<u16>,
) -> bool
    ensures entries { entries.new.items ≡ entries.old.items }
    ensures resets { resets.new.items ≡ resets.old.items }
    ensures completed { completed.new.items ≡ completed.old.items }
    ensures entry_room { result ≡ true → vec_len entries.new < vec_capacity entries.new }
    ensures reset_room { result ≡ true → vec_len resets.new < vec_capacity resets.new }
    ensures completed_room { result ≡ true → deque_len completed.new < deque_capacity completed.new }
{
    entries.reserve(1).is_ok() && (resets.reserve(1).is_ok() && completed.reserve(1).is_ok())
}

// The reset of a stream is no longer outstanding, and its completion is to be reported.
fn complete_reset(id: u16, resets: &mut Vec<u16>, completed: &mut VecDeque<u16>) -> Met
    requires { deque_len completed.old < deque_capacity completed.old }
    ensures again { result ≡ Again }
    ensures resets { resets.new.items ≡ without_reset id resets.old.items }
    ensures completed { completed.new.items ≡ completed.old.items ++ id ∷ [] }
{
    drop_reset(id, resets);
    if completed.push_back(id).is_err() {
        unreachable!();
    }
    Met::Again
}

// The stream of an event may have something to do.
fn note_event(event: AssocEvent, agenda: &mut Agenda)
    ensures notes { (id : ℕ) → IsTouched id event → has_id id agenda.new.streams ≡ true }
    ensures keeps { (id : ℕ) → has_id id agenda.new.streams ≡ false → has_id id agenda.old.streams ≡ false }
    ensures counts { (id : ℕ) → IsTouched id event → has_id id agenda.new.buffered ≡ true }
    ensures buffered { (id : ℕ) → has_id id agenda.new.buffered ≡ false → has_id id agenda.old.buffered ≡ false }
    ensures closed { agenda.new.closed ≡ agenda.old.closed }
{
    match event {
        AssocEvent::Connected => {}
        AssocEvent::Lost => {}
        AssocEvent::Readable(id) => agenda.note(id),
        AssocEvent::Writable(id) => agenda.note(id),
        AssocEvent::Finished(id) => agenda.note(id),
        AssocEvent::ResetComplete(id) => agenda.note(id),
        AssocEvent::BufferedAmountLow(_) => {}
    }
}

// Does what an event does, if there is room for what it adds.
fn apply_event(
    event: AssocEvent,
    state: &mut RtcSctpState,
    entries: &mut Vec<StreamEntry>,
    resets: &mut Vec<u16>,
    completed: &mut VecDeque<u16>,
) -> Met
    requires ascend { Ascend entries.old.items }
    requires entry_room { vec_len entries.old < vec_capacity entries.old }
    requires reset_room { vec_len resets.old < vec_capacity resets.old }
    requires completed_room { deque_len completed.old < deque_capacity completed.old }
    ensures met { result ≡ event_met event }
    ensures after { AfterEvent event (book state.old entries.old.items resets.old.items completed.old.items)
        (book state.new entries.new.items resets.new.items completed.new.items) }
{
    match event {
        AssocEvent::Connected => {
            *state = RtcSctpState::Established;
            Met::Again
        }
        AssocEvent::Lost => {
            resets.clear();
            completed.clear();
            Met::Output(SctpEvent::AssociationLost)
        }
        AssocEvent::Readable(id) | AssocEvent::Writable(id) => {
            expect_entry(entries, id);
            Met::Again
        }
        AssocEvent::Finished(id) => {
            finish_stream(entries, id);
            note_reset(id, resets);
            Met::Again
        }
        AssocEvent::ResetComplete(id) => complete_reset(id, resets, completed),
        AssocEvent::BufferedAmountLow(id) => Met::Output(SctpEvent::BufferedAmountLow { id }),
    }
}

/// Does what an event does, if there is room for what it adds.
///
/// Then it makes room for the next one, so that a poll with nothing to give allocates nothing, or tells that there is no memory for it.
pub fn apply_event_with_room(
    event: AssocEvent,
    state: &mut RtcSctpState,
    entries: &mut Vec<StreamEntry>,
    resets: &mut Vec<u16>,
    completed: &mut VecDeque<u16>,
    agenda: &mut Agenda,
    lacks_room: &mut bool,
) -> Met
    requires ascend { Ascend entries.old.items }
    requires entry_room { vec_len entries.old < vec_capacity entries.old }
    requires reset_room { vec_len resets.old < vec_capacity resets.old }
    requires completed_room { deque_len completed.old < deque_capacity completed.old }
    ensures met { result ≡ event_met event }
    ensures after { AfterEvent event (book state.old entries.old.items resets.old.items completed.old.items)
        (book state.new entries.new.items resets.new.items completed.new.items) }
    ensures notes { (id : ℕ) → IsTouched id event → has_id id agenda.new.streams ≡ true }
    ensures keeps { (id : ℕ) → has_id id agenda.new.streams ≡ false → has_id id agenda.old.streams ≡ false }
    ensures counts { (id : ℕ) → IsTouched id event → has_id id agenda.new.buffered ≡ true }
    ensures buffered { (id : ℕ) → has_id id agenda.new.buffered ≡ false → has_id id agenda.old.buffered ≡ false }
    ensures closed { agenda.new.closed ≡ agenda.old.closed }
{
    note_event(event, agenda);
    let met = apply_event(event, state, entries, resets, completed);
    *lacks_room = !make_room(entries, resets, completed);
    met
}
