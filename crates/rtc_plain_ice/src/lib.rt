//! The plain ICE agent: checks and responses in memory, without any security.
#![tactic(auto)]

mod addr_key;
mod addr_table;
mod agent;
mod calls;
mod candidate_table;
mod check;
mod datagrams;
mod message;
mod part;
mod place_key;
mod queues;
mod receiving;

pub use agent::PlainIce;
pub use datagrams::datagrams_begin_below_two;
