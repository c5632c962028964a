//! What a peer's session descriptions carry, and what its media part is given of those of the other side.
#![tactic(auto)]

mod credentials;
mod describing;
mod earlier_numbers;
mod extension_laws;
mod heading;
mod line_told;
mod naming;
mod sent_on_lines;
mod session_extensions;
mod sourcing;
mod telling;
mod updated_rows;
mod updating;

pub use credentials::make_creds;
pub use describing::make_sdp;
pub use earlier_numbers::EarlierNumbers;
pub use extension_laws::{added_lines_repeat_no_number, offers_keep_one_meaning};
pub use heading::{make_head, role_after, role_for, setup_of_role};
pub use naming::{draw_name, keep_name};
pub use sourcing::{draw_first_pairs, draw_pairs, draw_source};
pub use telling::{tell_offered, tell_rows};
pub use updating::{count_pairs, list_updates};
