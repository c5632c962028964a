//! Parts of a peer in memory, for tests and simulations, and a source of numbers that counts up.
#![tactic(auto)]

mod count_ids;

pub use count_ids::CountIds;
pub use rtc_plain_dtls::PlainDtls;
pub use rtc_plain_ice::PlainIce;
pub use rtc_plain_media::{PlainMark, PlainMedia, PlainMediaEvent};
