//! Laws of peers: what their calls do to their parts and leave of streams, what a drained peer returns, how outputs lower its weight,
//! and what two joined peers read of each other.
#![tactic(auto)]

mod acts;
mod changes;
mod closed;
mod direct;
mod drained;
mod events;
mod exchanging;
mod joined;
mod kept;
mod laws;
mod once;
mod rows;
mod shown;
mod weight;

pub use acts::{acceptances_act, calls_act, candidates_act};
pub use changes::changes_act;
pub use closed::closed_peers_stay_closed;
pub use direct::{direct_calls_act, direct_media_acts, loans_act};
pub use drained::{drained_peers_have_heard, drained_peers_rest, wakes_are_not_past};
pub use events::equals_itself;
pub use exchanging::exchanges_keep_peers_joined;
pub use joined::{
    calls_keep_peers_joined, calls_without_datagrams_carry_no_data,
    joined_peers_read_what_was_written, messages_are_those_of_calls,
};
pub use kept::{acceptances_keep_streams, other_calls_keep_streams, stagings_keep_streams};
pub use laws::calls_relay;
pub use once::channels_open_once;
pub use rows::named_rows_are_media_lines;
pub use shown::shown_data_is_of_dtls;
pub use weight::{
    other_calls_leave_handshakes_told, other_calls_set_no_threshold, outputs_lower_weight,
};
