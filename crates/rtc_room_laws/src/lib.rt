//! What members of message rooms hear of each other.
#![tactic(auto)]

mod handing_on;
mod item;
mod room_reply;
mod room_step;

pub use handing_on::rooms_hand_on;
pub use item::Item;
pub use room_reply::RoomReply;
pub use room_step::RoomStep;
