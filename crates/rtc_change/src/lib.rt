//! What an offer or an answer does to the rows of a peer, or why it is refused (RFC 8829, sections 5.10 and 5.11).
#![tactic(auto)]

mod add_media;
mod change;
mod changes;
mod judging_sides;
mod planning;
mod refusal;
mod sdp_pending_offer;
mod table_after;
mod view;
mod wrong_lines;

pub use add_media::AddMedia;
pub use change::Change;
pub use changes::{Changes, count_added, find_restart, is_added};
pub use planning::{plan_answer, plan_offer};
pub use refusal::Refusal;
pub use rtc_peer_rows::{Lines, NewLine, ParsedLine, Plan, Why, direct_row, stop_row};
pub use sdp_pending_offer::SdpPendingOffer;
pub use view::View;
