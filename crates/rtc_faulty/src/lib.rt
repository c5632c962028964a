//! Parts that fail at listed calls, and parts whose calls are counted, for tests of what a peer does.
#![tactic(auto)]

mod association;
mod call_counts;
mod call_kind;
mod call_numbers;
mod counted;
mod counted_association;
mod counted_dtls;
mod counted_ice;
mod counted_media;
mod dtls;
mod faulty;
mod media;

pub use call_counts::CallCounts;
pub use call_kind::CallKind;
pub use counted::Counted;
pub use faulty::Faulty;
