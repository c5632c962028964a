//! The end of a stream in use.
ghost use Rattle.std.specs.Prelude.{◌≡◌, true};
ghost use Rattle.rtc_sctp_entries.specs.declared.met.Met.TheVariants.{Again, Output};
ghost use Rattle.rtc_sctp_entries.specs.Entries.{closed_entry, marked_entry};
ghost use Rattle.rtc_sctp_entries.specs.Visits.{turn, Closes, close_event};

use crate::asked::Asked;
use crate::met::Met;
use crate::resets::{has_reset, note_reset};
use crate::{SctpEvent, StreamEntry, StreamEntryState, part};
use rtc_parts::Association;

/// Marks an entry, to be closed.
pub fn mark(entry: &mut StreamEntry) -> Met
    ensures again { result ≡ Again }
    ensures marked { entry.new ≡ marked_entry entry.old }
{
    entry.marked = true;
    Met::Again
}

// An entry is closed, and says whether a reset of its stream is outstanding.
fn tell_close(entry: &mut StreamEntry, resets: &[u16]) -> Met
    ensures told { result ≡ Output (close_event entry.old resets.now) }
    ensures closed { entry.new ≡ closed_entry entry.old }
{
    entry.state = StreamEntryState::Closed;
    Met::Output(SctpEvent::Close {
        id: entry.id,
        reset_pending: has_reset(entry.id, resets),
    })
}

/// Closes the stream of an entry.
pub fn close_entry<S: Association>(
    association: &mut S,
    entry: &mut StreamEntry,
    resets: &mut Vec<u16>,
) -> Met
    requires { S.association.started association.old ≡ true }
    ensures { Closes S.association (turn association.old entry.old resets.old.items)
        result (turn association.new entry.new resets.new.items) }
{
    if resets.reserve(1).is_err() {
        return Met::OutOfMemory;
    }
    match part::end(association, entry.id) {
        Asked::Done => {
            note_reset(entry.id, resets);
            tell_close(entry, resets.as_slice())
        }
        Asked::Refused => tell_close(entry, resets.as_slice()),
        Asked::OutOfMemory => Met::OutOfMemory,
    }
}
