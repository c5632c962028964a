//! Equality of events.
ghost use Rattle.std.specs.Prelude.{◌≡◌};
ghost use Rattle.rtc_peer_laws.specs.EventEquality.{equals_itself as EqualsItself};

use rtc_peer_transport::Event;

/// What `event == event` returns: an event equals itself, but for a media event that does not.
pub fn equals_itself<E: PartialEq>(event: &Event<E>) -> bool
    ensures { result ≡ EqualsItself E.eq event.now }
{
    event == event
}
