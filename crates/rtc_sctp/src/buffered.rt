//! What is not acknowledged of the streams.
ghost use Rattle.std.specs.Prelude.{◌≡◌, ◌-◌, true, false};
ghost use Rattle.rtc_sctp_entries.specs.Entries.{Ascend};
ghost use Rattle.rtc_sctp.specs.Calls.{buffered_sum};
ghost use Rattle.rtc_sctp.specs.Rest.{has_entry, may_buffer as MayBuffer, AreCounted, AreTended, entry_amount as EntryAmount};

use crate::StreamEntry;
use crate::agenda::Agenda;
use rtc_parts::Association;
use rtc_sctp_entries::entries::place_of;
use rtc_sctp_values::StreamSet;

/// Whether something may not be acknowledged of a stream.
pub fn may_buffer<S: Association>(association: &S, id: u16) -> bool
    ensures { result ≡ MayBuffer S.association association.now id }
{
    !association.has_stream(id) || 0 < association.buffered_amount(id)
}

// The buffered amount of a stream, if it has an entry.
fn entry_amount<S: Association>(association: &S, entries: &[StreamEntry], id: u16) -> usize
    requires { Ascend entries.now }
    ensures { result ≡ EntryAmount S.association association.now id entries.now }
{
    match place_of(entries, id) {
        None => 0,
        Some(_) => association.buffered_amount(id),
    }
}

/// What is left of `max` bytes, of which each stream takes its buffered amount.
pub fn left_of<S: Association>(
    association: &S,
    entries: &[StreamEntry],
    buffered: &StreamSet,
    max: usize,
) -> usize
    requires ascend { Ascend entries.now }
    requires counted { AreCounted S.association association.now buffered.now entries.now }
    ensures { result ≡ max - buffered_sum S.association association.now entries.now }
{
    let mut from = 0usize;
    let mut left = max;
    'streams: while let Some(id) = buffered.next(from) {
        left = left.saturating_sub(entry_amount(association, entries, id));
        from = id as usize + 1;
    }
    left
}

// Whether a stream has an entry, and something of it may not be acknowledged.
fn is_counted<S: Association>(association: &S, entries: &[StreamEntry], id: u16) -> bool
    requires { Ascend entries.now }
    ensures { result ≡ false → has_entry id entries.now ≡ true → S.association.unacknowledged association.now id ≡ 0 }
{
    match place_of(entries, id) {
        None => false,
        Some(_) => may_buffer(association, id),
    }
}

/// Looks at the next stream that may have something buffered, and forgets it if it has no entry or all of it is acknowledged.
pub fn sift<S: Association>(association: &S, entries: &[StreamEntry], agenda: &mut Agenda)
    requires { AreTended S.association association.now entries.now agenda.old }
    ensures { AreTended S.association association.now entries.now agenda.new }
{
    let Some(id) = agenda.next_buffered() else {
        return;
    };
    let some = is_counted(association, entries, id);
    agenda.count(id, some);
}
