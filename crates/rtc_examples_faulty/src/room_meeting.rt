//! Members of a room that connect.
use crate::room_course::RoomCourse;
use std::alloc::{AllocError, Global};

// What happens behind the answer.
#[derive(Clone, Copy)]
enum Deed {
    // Both peers are given a moment and polled.
    Turn,
    // The member is given the datagram of this number.
    Deliver(u64),
    // The hub is given it.
    Arrive(u64),
}

// The checks, the handshake, and the opening of the channel.
static DEEDS: [Deed; 22] = [
    Deed::Turn,
    Deed::Deliver(0),
    Deed::Arrive(1),
    Deed::Turn,
    Deed::Deliver(2),
    Deed::Arrive(3),
    Deed::Turn,
    Deed::Arrive(4),
    Deed::Turn,
    Deed::Deliver(5),
    Deed::Turn,
    Deed::Arrive(6),
    Deed::Arrive(7),
    Deed::Turn,
    Deed::Deliver(8),
    Deed::Turn,
    Deed::Arrive(9),
    Deed::Turn,
    Deed::Deliver(10),
    Deed::Deliver(11),
    Deed::Turn,
    Deed::Arrive(12),
];

/// As many datagrams are sent until a member is connected and has its line.
pub const MEETING: u64 = 13;

/// A member connects and opens its line.
pub fn meet(alloc: Global, course: &mut RoomCourse, member: u32) -> Result<(), AllocError> {
    course.negotiate(alloc, member)?;
    for deed in &DEEDS {
        match deed {
            Deed::Turn => course.turn(member)?,
            Deed::Deliver(packet) => course.deliver(member, *packet)?,
            Deed::Arrive(packet) => course.arrive(member, *packet)?,
        }
    }
    course.turn(member)
}
