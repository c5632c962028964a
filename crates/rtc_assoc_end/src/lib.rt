//! The plain association: a reliable, resettable transport of messages in memory, without any security.
#![tactic(auto)]

mod arrival;
mod association;
mod calls;
mod input;
mod part;
mod queueing;
mod readings;
mod taking;

pub use association::PlainAssociation;
