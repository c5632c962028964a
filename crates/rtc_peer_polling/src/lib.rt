//! Polls and inputs: what a peer takes from its parts, in one order, what it sends, and what it gives them.
#![tactic(auto)]

mod checking;
mod hearing;
mod laws;
mod polling_dtls;
mod polling_ice;
mod polling_media;
mod polling_streams;
mod resting;
mod sending;
mod sending_packets;
mod timing;
mod walking;

pub use hearing::handle_input;
pub use laws::{
    channels_are_numbered, negotiation_is_kept, stance_is_kept, starts_are_kept,
    want_of_memory_closes,
};
pub use resting::visits_rest;
pub use walking::{rest, visit};
