//! One stream in use over an association: its entry, and what a visit does with it (RFC 8831, RFC 8832).
#![tactic(auto)]

mod asked;
mod buffered_threshold_config;
mod closing;
pub mod entries;
mod heard;
mod message;
mod met;
mod opening;
mod opens;
pub mod part;
mod read_message;
pub mod resets;
mod sctp_event;
mod stream_entry;
mod stream_entry_state;
pub mod visit;

pub use asked::Asked;
pub use buffered_threshold_config::BufferedThresholdConfig;
pub use met::Met;
pub use sctp_event::SctpEvent;
pub use stream_entry::StreamEntry;
pub use stream_entry_state::StreamEntryState;
