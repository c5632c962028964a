//! Work on queues for which room was made.
ghost use Rattle.std.specs.Prelude.{◌≡◌, ◌+◌, ◌≤◌, ◌<◌, ◌∷◌, [], ◌++◌, true, None};
ghost use Rattle.std.specs.VecDeque.{deque_len, deque_capacity};
ghost use Rattle.rtc_parts.specs.declared.ice_connection_state.IceConnectionState.TheVariants.{Connected};
ghost use Rattle.rtc_parts.specs.declared.ice_event.IceEvent.TheVariants.{StateChange, NominatedSend};
ghost use Rattle.rtc_plain_ice.specs.Calls.{state_checked, checking_told};

use crate::check::{Check, Ends};
use rtc_parts::{IceConnectionState, IceEvent};
use std::collections::VecDeque;

/// Puts an event at the end.
pub fn tell(events: &mut VecDeque<IceEvent>, event: IceEvent)
    requires { deque_len events.old < deque_capacity events.old }
    ensures items { events.new.items ≡ events.old.items ++ event ∷ [] }
    ensures len { deque_len events.new ≡ deque_len events.old + 1 }
    ensures capacity { deque_capacity events.old ≤ deque_capacity events.new }
{
    if events.push_back(event).is_err() {
        unreachable!();
    }
}

/// The first check changes the state, which is reported.
pub fn start_checking(state: &mut IceConnectionState, events: &mut VecDeque<IceEvent>)
    requires { deque_len events.old < deque_capacity events.old }
    ensures state { state.new ≡ state_checked state.old }
    ensures events { events.new.items ≡ events.old.items ++ checking_told state.old }
{
    match *state {
        IceConnectionState::New => {
            *state = IceConnectionState::Checking;
            tell(events, IceEvent::StateChange(IceConnectionState::Checking));
        }
        IceConnectionState::Checking
        | IceConnectionState::Connected
        | IceConnectionState::Completed
        | IceConnectionState::Disconnected => {}
    }
}

/// Nominates a pair.
pub fn nominate(
    ends: &Ends,
    nominated: &mut bool,
    check: &mut Option<Check>,
    state: &mut IceConnectionState,
    events: &mut VecDeque<IceEvent>,
)
    requires { deque_len events.old + 2 ≤ deque_capacity events.old }
    ensures nominated { nominated.new ≡ true }
    ensures check { check.new ≡ None }
    ensures state { state.new ≡ Connected }
    ensures events { events.new.items ≡ events.old.items ++ StateChange Connected
        ∷ NominatedSend ends.now.proto ends.now.source ends.now.destination ∷ [] }
{
    *nominated = true;
    *check = None;
    *state = IceConnectionState::Connected;
    tell(events, IceEvent::StateChange(IceConnectionState::Connected));
    tell(
        events,
        IceEvent::NominatedSend {
            proto: ends.proto,
            source: ends.source,
            destination: ends.destination,
        },
    );
}
