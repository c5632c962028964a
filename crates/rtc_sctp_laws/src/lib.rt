//! Laws of streams: what their calls do to the association, the order of their events, and what is written and read of each generation.
#![tactic(auto)]

mod acts;
mod buffers;
mod closes;
mod contents;
mod numbers;
mod plain;
mod timeouts;
mod unread;
mod uses;
mod visits;

pub use acts::calls_did;
pub use buffers::accepted_writes_fit;
pub use closes::close_comes_before_completion;
pub use contents::live_streams_carry;
pub use numbers::numbers_carry_the_same;
pub use plain::plain_streams_keep_laws;
pub use timeouts::narrowed_timeouts_leave;
pub use unread::read_streams_are_passed_over;
pub use uses::calls_keep_uses;
pub use visits::visits_keep_marks_and_deadlines;
