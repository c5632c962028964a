//! What a timeout of streams leaves by the marks of its wake.
ghost use Rattle.std.specs.Prelude.{◌≡◌, ℕ, true, false, Option, None, Result, Ok};
ghost use Rattle.std.specs.declared.alloc.AllocError.{AllocError};
ghost use Rattle.rtc_ready.specs.Signals.{Signals};
ghost use Rattle.rtc_sctp_entries.specs.declared.sctp_event.SctpEvent.{SctpEvent};
ghost use Rattle.rtc_sctp.specs.Streams.{SctpStreams};
ghost use Rattle.rtc_sctp.specs.Calls.{TakesTimeout, streams_wake};
ghost use Rattle.rtc_sctp.specs.Polls.{PollsStreams};
ghost use Rattle.rtc_sctp_laws.specs.NarrowedTimeouts.{GivesNothing, LeavesUnestablishedPolls};

use rtc_parts::Association;

/// A timeout that clears the events mark of a wake leaves polls of streams as they were, until the association is
/// established. After a poll that looked at the streams and gave nothing, and such a timeout, a poll gives nothing, unless
/// memory runs out. A timeout that clears the timeout mark leaves the deadline.
pub fn narrowed_timeouts_leave<S: Association>()
    ensures polls { (p q : SctpStreams S) (now : ℕ) (wake wake' : Signals) (r : Result (Unit {0}) AllocError)
        → TakesTimeout S.association now p wake r q wake' → wake.events ≡ true → wake'.events ≡ false
        → LeavesUnestablishedPolls S.association p q }
    ensures nothing { (before p q after : SctpStreams S) (now : ℕ) (wake wake' : Signals) (r : Result (Unit {0}) AllocError)
        (answer : Result (Option SctpEvent) AllocError) → before.rests ≡ false → PollsStreams S.association before (Ok None) p
        → TakesTimeout S.association now p wake r q wake' → wake.events ≡ true → wake'.events ≡ false
        → PollsStreams S.association q answer after → GivesNothing answer }
    ensures deadline { (p q : SctpStreams S) (now : ℕ) (wake wake' : Signals) (r : Result (Unit {0}) AllocError)
        → TakesTimeout S.association now p wake r q wake' → wake.timeout ≡ true → wake'.timeout ≡ false
        → streams_wake S.association q ≡ streams_wake S.association p }
{}
