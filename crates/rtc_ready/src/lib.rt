//! Readiness signals: whether a peer may have something to give, and whether its wake time may have moved.
#![tactic(auto)]

mod laws;
mod mutation;
mod readiness;
mod wake;

pub use laws::signals_accumulate;
pub use mutation::Mutation;
pub use readiness::Readiness;
pub use wake::Wake;
