//! A peer that a caller in C keeps, and the calls on it.
//!
//! C sees a `Slot`: a place that is empty or has a peer. Nothing else of a peer is in its sight.
#![tactic(auto)]

mod address;
mod calls;
mod channel_entry;
mod channel_settings;
mod connected_calls;
mod copying;
mod handle;
mod held;
mod line_entry;
mod made;
mod negotiation;
mod numbers;
mod output_bytes;
mod output_row;
mod outputs;
mod parts;
mod settings;
mod slot;
mod staging;
mod status;
mod status_texts;
mod transport;
mod wanted_change;
mod wanting;

pub use address::Address;
pub use calls::{accept_answer, accept_offer, free_peer, new_peer, offer, roll_back};
pub use channel_entry::ChannelEntry;
pub use channel_settings::ChannelSettings;
pub use connected_calls::{
    close, close_channel, handle_receive, handle_timeout, poll_output, write,
};
pub use copying::{
    copy_channel, copy_line, copy_output, copy_status_name, copy_status_text, copy_text,
};
pub use held::Held;
pub use line_entry::LineEntry;
pub use made::Made;
pub use output_bytes::OutputBytes;
pub use output_row::OutputRow;
pub use settings::Settings;
pub use slot::Slot;
pub use status::Status;
pub use wanted_change::WantedChange;
pub use wanting::{
    add_channel, add_media, discard_changes, ice_restart, set_direction, stop_media,
};
