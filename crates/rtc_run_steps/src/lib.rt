//! Steps of two peers: session descriptions, moments, datagrams, polls, messages of channels, closes; and how each replies.
#![tactic(auto)]

mod accepting;
mod applied;
mod brought;
mod channels;
mod delivery;
mod foreign;
mod hearing;
mod negotiating;
mod polling;
mod replying;
mod rolling_back;
mod room;
mod sides;
mod turn;

pub use accepting::{deliver_and_accept_answer, deliver_and_accept_offer};
pub use channels::{close_channel, write_message};
pub use delivery::{deliver, deliver_answer, deliver_offer};
pub use foreign::{accept_foreign_answer, accept_foreign_offer};
pub use hearing::{close, take_datagram, take_moment, take_raw};
pub use negotiating::negotiate;
pub use polling::{drain, poll};
pub use replying::{
    make_channel_room, make_room, reply_no_memory, reply_no_such, reply_unread, reply_with,
    room_for,
};
pub use rolling_back::roll_offer_back;
pub use room::Room;
pub use sides::is_same_side;
