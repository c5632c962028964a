//! How a peer is built, what it stages before it offers, and its channels as rows: functions over its state.
#![tactic(auto)]

mod building;
mod changing;
mod showing;
mod staging;

pub use building::build_peer;
pub use changing::{set_direction, stop_media};
pub use showing::{list_channels, show_channel};
pub use staging::{stage_channel, stage_media, stage_restart};
