//! Frames that are on their way to connections.
ghost use Rattle.std.specs.Prelude.{◌≡◌, ◌+◌, ◌<◌, ◌^◌, [], length, map};
ghost use Rattle.rtc_gate_calls.specs.Delivering.{parcel_of, after_parcels, ArePlaced};

use crate::connection::Connection;
use rtc_wire::Bytes;
use std::collections::{LinkedList, VecDeque};

/// A frame on its way to a connection: its number, its place, and the frame, in a node that its queue takes over as it is.
#[derive(Drop)]
pub struct Delivery {
    pub to: u32,
    pub place: usize,
    pub frames: LinkedList<Bytes>,
}

/// Puts each frame into the queue of its connection. It takes no memory.
pub fn deliver(connections: &mut [Connection], mut deliveries: VecDeque<Delivery>)
    requires { ArePlaced connections.old deliveries.items }
    ensures { connections.new ≡ map (after_parcels (map parcel_of deliveries.items)) connections.old }
{
    while let Some(delivery) = deliveries.pop_front() {
        let Delivery {
            to: _,
            place,
            frames,
        } = delivery;
        let connection = &mut connections[place];
        connection.receive(frames);
    }
}
