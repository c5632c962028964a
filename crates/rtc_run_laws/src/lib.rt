//! Laws of runs: that each keeps what its history promises, what channels and associations hand out in it, how much drains show, and
//! what crossed offers and accepted session descriptions leave.
#![tactic(auto)]

mod acknowledged;
mod completing;
mod drains;
mod exchanged;
mod handing;
mod settling;
mod taken;
mod unannounced;

pub use acknowledged::sent_messages_are_acknowledged;
pub use completing::open_streams_close_before_completion;
pub use drains::drains_show_at_most_their_weight;
pub use exchanged::runs_keep_peers_joined;
pub use handing::channels_hand_out_prefixes;
pub use settling::settled_pairs_have_open_channels;
pub use taken::accepted_texts_are_taken;
pub use unannounced::unannounced_channels_are_silent;
