//! Pairs of peers over parts in memory that fail at listed calls, and runs of them.
#![tactic(auto)]

mod call_watch;
mod failing_calls;
mod faulty_pair;
mod laws;
mod part_watches;
mod running;

pub use call_watch::CallWatch;
pub use failing_calls::FailingCalls;
pub use faulty_pair::{
    FaultyAssociation, FaultyDtls, FaultyMedia, FaultyPair, FaultyPeer, make_faulty_pair,
};
pub use laws::{faults_are_of_listed_calls, faulty_peers_close_for_good};
pub use part_watches::PartWatches;
pub use running::run_faulty_pair;
