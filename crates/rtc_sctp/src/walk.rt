//! The visits of the streams that may have something to do.
ghost use Rattle.std.specs.Prelude.{◌≡◌, true, []};
ghost use Rattle.rtc_sctp_values.specs.StreamIds.{has_id};
ghost use Rattle.rtc_sctp.specs.Polls.{VisitsAll};
ghost use Rattle.rtc_sctp.specs.Rest.{AreTended};
ghost use Rattle.rtc_sctp.specs.TourSteps.{StepsBy};

use crate::StreamEntry;
use crate::agenda::Agenda;
use crate::buffered::may_buffer;
use rtc_parts::Association;
use rtc_sctp_entries::Met;
use rtc_sctp_entries::entries::place_of;
use rtc_sctp_entries::visit::visit;
use rtc_wire::Moment;
use std::alloc::Global;

// Visits the entry of a stream that may have something to do.
fn visit_stream<S: Association>(
    alloc: Global,
    now: Moment,
    id: u16,
    association: &mut S,
    entries: &mut Vec<StreamEntry>,
    resets: &mut Vec<u16>,
    agenda: &mut Agenda,
) -> Met
    requires started { S.association.started association.old ≡ true }
    requires noted { has_id id agenda.old.streams ≡ true }
    requires tended { AreTended S.association association.old entries.old.items agenda.old }
    ensures tended { AreTended S.association association.new entries.new.items agenda.new }
    ensures steps { StepsBy S.association now result id entries.old.items association.old resets.old.items
        association.new resets.new.items entries.new.items }
{
    let Some(place) = place_of(entries.as_slice(), id) else {
        agenda.forget(id);
        return Met::Nothing;
    };
    let entry = &mut entries[place];
    let met = visit(alloc, now, association, entry, resets);
    let some = may_buffer(association, id);
    agenda.settle(id, entry.state, &met, some);
    met
}

/// Visits the entries in order, up to the first that gives something. Those that have nothing to do are left out, where no
/// event of the association is due.
pub fn visit_all<S: Association>(
    alloc: Global,
    now: Moment,
    association: &mut S,
    entries: &mut Vec<StreamEntry>,
    resets: &mut Vec<u16>,
    agenda: &mut Agenda,
) -> Met
    requires started { S.association.started association.old ≡ true }
    requires quiet { S.association.due association.old ≡ [] }
    requires tended { AreTended S.association association.old entries.old.items agenda.old }
    ensures tended { AreTended S.association association.new entries.new.items agenda.new }
    ensures visits { VisitsAll S.association now entries.old.items association.old resets.old.items result
        association.new resets.new.items entries.new.items }
{
    let mut from = 0usize;
    'streams: while let Some(id) = agenda.streams.next(from) {
        match visit_stream(alloc, now, id, association, entries, resets, agenda) {
            Met::Nothing => {}
            met => return met,
        }
        from = id as usize + 1;
    }
    Met::Nothing
}
