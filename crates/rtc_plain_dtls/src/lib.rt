//! The plain DTLS part: a handshake and application data in memory, without any security.
#![tactic(auto)]

mod calls;
mod data;
mod frame;
mod handshake;
mod instance;
mod output;
mod part;
mod phase;
mod queues;
mod short;

pub use data::data_is_faithful;
pub use instance::PlainDtls;
