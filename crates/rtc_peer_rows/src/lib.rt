//! The rows of a peer, and why a line of a session description is refused at them (RFC 8829, section 5.2.2).
#![tactic(auto)]

mod bundled;
mod judging;
mod lines;
mod mid_index;
mod new_line;
mod parsed_line;
mod plan;
mod row_changes;
mod why;

pub use judging::{find_app, judge_lines};
pub use lines::Lines;
pub use mid_index::MidIndex;
pub use new_line::NewLine;
pub use parsed_line::ParsedLine;
pub use plan::Plan;
pub use row_changes::{direct_row, stop_row};
pub use why::Why;
