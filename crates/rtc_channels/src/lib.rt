//! The data channels of a peer by their numbers (RFC 8831, section 6.4), and the stream ids that are free (RFC 8832, section 6).
#![tactic(auto)]

mod allocating;
mod channel_error;
mod channel_handler;
mod channel_row;
mod free_ids;
mod grants;
mod holding;
mod kept;
mod narrowing;
mod opening;
mod pools;
mod progress;
mod settled;

pub use channel_error::ChannelError;
pub use channel_handler::ChannelHandler;
pub use channel_row::ChannelRow;
pub use free_ids::FreeIds;
pub use narrowing::narrowed_moments_leave;
