//! Visits of streams with nothing unread.
ghost use Rattle.std.specs.Prelude.{◌≡◌, true, false};
ghost use Rattle.rtc_sctp_entries.specs.declared.met.Met.{Met};
ghost use Rattle.rtc_sctp_entries.specs.Visits.{Turn, MayRead};
ghost use Rattle.rtc_sctp_laws.specs.PassedReads.{PassesOver};

use rtc_parts::Association;

/// A stream that is there and has nothing unread of its generation is passed over, whether it is read or the read is left out. Nothing is
/// met and nothing changes, unless memory runs out or the association faults.
pub fn read_streams_are_passed_over<S: Association>()
    ensures { (t t' : Turn S) (met : Met) → S.association.has_stream t.association t.entry.id ≡ true
        → S.association.has_unread t.association t.entry.id (S.association.generation t.association t.entry.id) ≡ false
        → MayRead S.association t met t' → PassesOver S.association t met t' }
{}
