//! What a call raises of the signals of a peer.
ghost use Rattle.std.specs.Prelude.{◌≡◌, true};
ghost use Rattle.rtc_ready.specs.Signals.{both};

use rtc_ready::Readiness;

// A call may give every part something to tell, and may move every timer.
pub(crate) fn wake_all(readiness: &mut Readiness)
    ensures { readiness.new ≡ both }
{
    let wake = readiness.mutate().into_wake();
    readiness.fold(wake);
}

// A call may give a part something to tell, and moves no timer.
pub(crate) fn wake_events(readiness: &mut Readiness)
    ensures { readiness.new ≡ record readiness.old { events = true } }
{
    let mut mutation = readiness.mutate();
    mutation.no_timeout();
    readiness.fold(mutation.into_wake());
}
