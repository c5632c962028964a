//! The Close of a stream that was reported as open, and the completed reset of its generation.
ghost use Rattle.std.specs.Prelude.{◌≡◌, ℕ, List, Ok, Some, true};
ghost use Rattle.rtc_sctp_entries.specs.declared.sctp_event.SctpEvent.{SctpEvent};
ghost use Rattle.rtc_sctp_entries.specs.declared.sctp_event.SctpEvent.TheVariants.{Open};
ghost use Rattle.rtc_sctp.specs.Polls.{PollsStreams};
ghost use Rattle.rtc_sctp.specs.Streams.{SctpStreams};
ghost use Rattle.rtc_sctp_laws.specs.GenerationLaws.{GenerationLaws};
ghost use Rattle.rtc_sctp_laws.specs.StreamRuns.{CallsInTurn, all_events};
ghost use Rattle.rtc_sctp_laws.specs.StreamUses.{IsLive};
ghost use Rattle.rtc_run_laws.specs.SettledPairs.{IsInBandStream};
ghost use Rattle.rtc_run_laws.specs.StreamCompletions.{AreBeginning, all_had_memory, closes_before, completed_resets};

use rtc_parts::Association;

/// Of any calls in turn on streams, from their beginning on: if a poll reports that a stream is open, its Close is
/// reported before the completed reset of its generation. The completed resets of a stream are counted as the ends of
/// its generations, from 0 on. This holds of a stream whose entry keeps the generation, and so of one that was opened
/// in-band, in the generation that it has when it is reported as open, if no poll before ran out of memory.
pub fn open_streams_close_before_completion<S: Association>()
    ensures order { (p q r t : SctpStreams S) (id g : ℕ) (label : List ℕ) (before later : List (List SctpEvent))
        → AreBeginning S.association p → CallsInTurn S.association before p q
        → PollsStreams S.association q (Ok (Some (Open id label))) r → IsLive id g r.entries
        → CallsInTurn S.association later r t
        → closes_before id g (completed_resets id (all_events before)) (all_events later) ≡ true }
    ensures in_band { GenerationLaws S.association → (p q r t : SctpStreams S) (id : ℕ) (label : List ℕ)
        (before later : List (List SctpEvent)) → AreBeginning S.association p → (calls : CallsInTurn S.association before p q)
        → all_had_memory S.association before p q calls ≡ true
        → PollsStreams S.association q (Ok (Some (Open id label))) r → IsInBandStream id r.entries
        → CallsInTurn S.association later r t
        → closes_before id (S.association.generation r.association id) (completed_resets id (all_events before)) (all_events later)
        ≡ true }
{}
