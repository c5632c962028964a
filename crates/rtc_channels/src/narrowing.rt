//! What a wake that channels narrowed says.
ghost use Rattle.std.specs.Prelude.{◌≡◌, true, false, Result};
ghost use Rattle.std.specs.declared.alloc.AllocError.{AllocError};
ghost use Rattle.rtc_ready.specs.Signals.{Signals};
ghost use Rattle.rtc_sctp.specs.Streams.{SctpStreams};
ghost use Rattle.rtc_channels.specs.Channels.{Channels};
ghost use Rattle.rtc_channels.specs.Openings.{MeetsMoment, is_progress_due};
ghost use Rattle.rtc_channels.specs.Narrowing.{LeavesPolls, LeavesDeadlines};

use rtc_parts::Association;

/// A moment of channels that clears the events mark of a wake leaves every poll of the streams as it was, and one that
/// clears the timeout mark leaves the deadlines of streams and channels.
pub fn narrowed_moments_leave<S: Association>()
    ensures events { (held held' : Channels) (p p' : SctpStreams S) (wake wake' : Signals) (r : Result (Unit {0}) AllocError)
        → MeetsMoment S.association (is_progress_due S.association held p) held p wake r held' p' wake'
        → wake.events ≡ true → wake'.events ≡ false → LeavesPolls S.association p p' }
    ensures timeout { (held held' : Channels) (p p' : SctpStreams S) (wake wake' : Signals) (r : Result (Unit {0}) AllocError)
        → MeetsMoment S.association (is_progress_due S.association held p) held p wake r held' p' wake'
        → wake.timeout ≡ true → wake'.timeout ≡ false → LeavesDeadlines S.association held p held' p' }
{}
