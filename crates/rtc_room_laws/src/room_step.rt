//! Steps of rooms.
ghost use Rattle.std.specs.Prelude.{◌≡◌};

use rtc_run_history::Step;
use rtc_wire::Moment;

/// What happens at the hub in a step. Members are numbered from 0 in the order in which they joined.
#[derive(Debug, PartialEq, Eq, Drop)]
pub enum RoomStep {
    /// A new member joins a room.
    Join {
        room: u32,
    },
    /// A member leaves.
    Leave {
        member: u32,
    },
    /// A step of a member's pair.
    Perform {
        member: u32,
        step: Step,
    },
    /// A datagram that the member's right peer sent is received at the address of the hub, at a moment.
    Arrive {
        member: u32,
        packet: u64,
        now: Moment,
    },
    /// What waits for a member is written to its line.
    Forward {
        member: u32,
    },
}
