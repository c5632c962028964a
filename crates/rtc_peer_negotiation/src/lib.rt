//! What a peer does when it negotiates: functions over its state.
#![tactic(auto)]

mod accepting;
mod answering;
mod applying;
mod confirming;
mod copying;
mod draws;
mod following;
mod growing;
mod growth;
mod moving;
mod rolling_back;
mod starting;
mod starting_sctp;
mod telling_init;

pub use accepting::{accept_answer, accept_offer};
pub use applying::apply_staged;
pub use following::start_dtls;
pub use rolling_back::roll_back;
