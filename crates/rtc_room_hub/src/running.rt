//! Runs of rooms.
ghost use Rattle.std.specs.Prelude.{◌≡◌, ◌<◌, ◌^◌, [], IfOk};
ghost use Rattle.rtc_room_laws.specs.RoomHandsOn.{RoomHandsOn};
ghost use Rattle.rtc_room_laws.specs.RoomRuns.{RoomRuns};
ghost use Rattle.rtc_room_laws.specs.RoomSizes.{room_size};

use crate::taking::take_step;
use rtc_room_laws::{RoomReply, RoomStep};
use rtc_run::PlainPair;
use std::alloc::{AllocError, Global};

/// Takes the steps of a room in order, and returns a reply for each.
///
/// What a member receives of another one is a prefix of what the hub heard of that one while both were in one room. `pairs` then has the
/// pair of each member that joined, by its number, also of those that have left. Running out of memory in any step ends it with an error,
/// of a step of a pair too.
pub fn run_room(
    alloc: Global,
    steps: &[RoomStep],
    pairs: &mut Vec<PlainPair>,
) -> Result<Vec<RoomReply>, AllocError>
    requires empty { pairs.old.items ≡ [] }
    requires sizes { room_size steps.now < 2 ^ 32 }
    ensures runs { IfOk result (λ replies. RoomRuns alloc steps.now replies.items pairs.new.items) }
    ensures hands_on { IfOk result (λ replies. (run : RoomRuns alloc steps.now replies.items pairs.new.items)
        → RoomHandsOn alloc steps.now replies.items pairs.new.items run) }
{
    let mut replies = Vec::with_capacity(alloc, steps.len())?;
    let mut members = Vec::new(alloc);
    for step in steps {
        let reply = take_step(alloc, &mut members, pairs, step)?;
        replies.push_reserved(reply);
    }
    Ok(replies)
}
