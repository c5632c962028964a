//! Laws of the visits of streams.
ghost use Rattle.std.specs.Prelude.{◌≡◌, ℕ, true, false};
ghost use Rattle.rtc_sctp_entries.specs.declared.met.Met.{Met};
ghost use Rattle.rtc_sctp_entries.specs.declared.stream_entry_state.StreamEntryState.TheVariants.{AwaitOpen};
ghost use Rattle.rtc_sctp_entries.specs.StreamLaws.{is_data_met, is_given_up, is_nothing_met};
ghost use Rattle.rtc_sctp_entries.specs.Visits.{Turn, Visits};

use rtc_parts::Association;

/// Data is returned only of an entry that is not marked. An opening that was first refused ten seconds ago or earlier is not left waiting.
pub fn visits_keep_marks_and_deadlines<S: Association>()
    ensures data { (now : ℕ) (t t' : Turn S) (met : Met) → Visits S.association now t met t' → is_data_met met ≡ true
        → t.entry.marked ≡ false }
    ensures deadline { (now : ℕ) (t t' : Turn S) (met : Met) → t.entry.state ≡ AwaitOpen
        → is_given_up now t.entry.refused ≡ true → Visits S.association now t met t' → is_nothing_met met ≡ false }
{}
