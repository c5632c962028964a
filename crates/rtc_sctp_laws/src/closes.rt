//! The order of a Close and the completed resets.
ghost use Rattle.std.specs.Prelude.{◌≡◌, ℕ, List, Option, Result, true, Some, slice_get};
ghost use Rattle.std.specs.declared.alloc.AllocError.{AllocError};
ghost use Rattle.rtc_parts.specs.declared.assoc_event.AssocEvent.TheVariants.{Finished};
ghost use Rattle.rtc_sctp_entries.specs.declared.stream_entry.StreamEntry.{StreamEntry};
ghost use Rattle.rtc_sctp_entries.specs.declared.sctp_event.SctpEvent.{SctpEvent};
ghost use Rattle.rtc_sctp_entries.specs.Entries.{entry_place};
ghost use Rattle.rtc_sctp.specs.Streams.{SctpStreams, is_established};
ghost use Rattle.rtc_sctp.specs.StreamCalls.{ClosesDataStream};
ghost use Rattle.rtc_sctp.specs.Polls.{Book, AfterEvent};
ghost use Rattle.rtc_sctp_laws.specs.StreamRuns.{CallsInTurn, all_events, is_past_opening, has_closing_entry, closes_first};

use rtc_parts::Association;

/// The entry of a stream that is past its opening is to be closed if the stream is closed from here, and if the close
/// of the other end is reported. Over an established association, its Close is before any completed reset among the
/// events that later calls return.
pub fn close_comes_before_completion<S: Association>()
    ensures closed { (p q : SctpStreams S) (id place : ℕ) (e : StreamEntry) (r : Result (Unit {0}) AllocError)
        → entry_place id p.entries ≡ Some place → slice_get p.entries place ≡ Some e → is_past_opening e.state ≡ true
        → ClosesDataStream S.association id p r q → has_closing_entry id q.entries ≡ true }
    ensures finished { (b b' : Book) (id place : ℕ) (e : StreamEntry) → entry_place id b.entries ≡ Some place
        → slice_get b.entries place ≡ Some e → is_past_opening e.state ≡ true → AfterEvent (Finished id) b b'
        → has_closing_entry id b'.entries ≡ true }
    ensures order { (p q : SctpStreams S) (id : ℕ) (all : List (List SctpEvent)) → is_established p.state ≡ true
        → S.association.started p.association ≡ true → has_closing_entry id p.entries ≡ true
        → CallsInTurn S.association all p q → closes_first id (all_events all) ≡ true }
{}
