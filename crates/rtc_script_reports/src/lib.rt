//! Reports of scripts: a line for each reply, with what its polls gave and what its peer holds.
#![tactic(auto)]

mod channels;
mod events;
mod laws;
mod outcomes;
mod outputs;
mod pushing;
mod reading;
mod refusals;
mod reports;
mod rows;
mod words;

pub use laws::reports_tell_replies;
pub use reports::{write_reply, write_report};
