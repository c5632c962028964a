//! A peer with its connection to the other side: what is read of it, its channels, its statistics, and how it is closed.
#![tactic(auto)]

mod channel_calls;
mod channel_data;
mod closing;
mod deadlines;
mod event;
mod handshake;
mod input;
mod met;
mod output;
mod polled_peer;
mod recent_addrs;
mod send_addr;
mod statistics;
mod transport;

pub use channel_data::ChannelData;
pub use closing::{close_out_of_memory, is_closing};
pub use event::Event;
pub use handshake::Handshake;
pub use input::Input;
pub use met::Met;
pub use output::Output;
pub use polled_peer::PolledPeer;
pub use recent_addrs::RecentAddrs;
pub use send_addr::SendAddr;
pub use transport::Transport;
