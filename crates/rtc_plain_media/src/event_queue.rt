//! Room for events.
ghost use Rattle.std.specs.Prelude.{◌≡◌, ◌≤◌, ◌+◌, ◌++◌, ◌∷◌, [], OnOk, OnErr};
ghost use Rattle.rtc_plain_media.specs.PlainMediaEvent.{raw_event};
ghost use Rattle.std.specs.VecDeque.{deque_len, deque_capacity};

use crate::PlainMediaEvent;
use rtc_parts::RawPacket;
use std::alloc::AllocError;
use std::collections::VecDeque;

/// Makes room for so many events beside those for which room is kept.
pub fn make_room(
    events: &mut VecDeque<PlainMediaEvent>,
    kept: usize,
    more: usize,
) -> Result<(), AllocError>
    ensures items { events.new.items ≡ events.old.items }
    ensures len { deque_len events.new ≡ deque_len events.old }
    ensures capacity { deque_capacity events.old ≤ deque_capacity events.new }
    ensures room { OnOk result (deque_len events.new + kept + more ≤ deque_capacity events.new) }
{
    match kept.checked_add(more) {
        Some(room) => {
            events.reserve(room)?;
            Ok(())
        }
        None => Err(AllocError),
    }
}

/// Queues the event of a packet, and before it the raw packet, if there is one. So much room is left for other events.
pub fn queue_packet(
    events: &mut VecDeque<PlainMediaEvent>,
    kept: usize,
    raw: Option<RawPacket>,
    event: PlainMediaEvent,
) -> Result<(), AllocError>
    requires { deque_len events.old + kept ≤ deque_capacity events.old }
    ensures ok { OnOk result (events.new.items ≡ events.old.items ++ raw_event raw ++ event ∷ []) }
    ensures err { OnErr result (events.new.items ≡ events.old.items) }
    ensures room { deque_len events.new + kept ≤ deque_capacity events.new }
{
    make_room(events, kept, 2)?;
    match raw {
        Some(packet) => events.push_back_reserved(PlainMediaEvent::Raw(packet)),
        None => {}
    }
    events.push_back_reserved(event);
    Ok(())
}
