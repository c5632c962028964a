//! Rooms of many members: what the hub receives of one member it sends on to the others of the room.
#![tactic(auto)]

mod accepting;
mod forwarding;
mod hearing;
mod member;
mod performing;
mod running;
mod sent;
mod taking;

pub use running::run_room;
