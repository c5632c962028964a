//! The plain association, and what holds of two ends of it.
#![tactic(auto)]

mod assoc_reply;
mod assoc_step;
mod calls;
mod ends;
mod joined;
mod resets;
mod runs;
mod sent;
mod world;

pub use assoc_reply::AssocReply;
pub use assoc_step::AssocStep;
pub use ends::what_is_read_was_written;
pub use joined::moves_join_ends;
pub use resets::each_reset_is_told_once;
pub use rtc_assoc_end::PlainAssociation;
pub use runs::run_assoc;
