//! The values of the attributes of session descriptions: each as text, read and written.
#![tactic(auto)]

mod candidate_value;
mod cutting;
mod decimal_text;
mod extmap_value;
mod fingerprint_value;
mod fmtp;
mod fmtp_value;
mod hash_value;
mod laws;
mod media_laws;
mod msid_value;
mod rid_direction;
mod rid_line;
mod rid_value;
mod rtpmap;
mod rtpmap_value;
mod simulcast_line;
mod simulcast_value;
mod ssrc_name;
mod ssrc_value;
mod word_value;

pub use candidate_value::{put_candidate, read_candidate};
pub use cutting::cut;
pub use decimal_text::put_decimal;
pub use extmap_value::{put_extmap, read_extmap};
pub use fingerprint_value::{put_fingerprint, read_fingerprint};
pub use fmtp::Fmtp;
pub use fmtp_value::{put_apt, put_fmtp, put_red, read_apt, read_fmtp, read_red_primary};
pub use laws::{candidates_read_back, fingerprints_read_back, words_read_back};
pub use media_laws::{
    extmaps_read_back, fmtps_read_back, msids_read_back, rids_read_back, rtpmaps_read_back,
    simulcasts_read_back, ssrcs_read_back,
};
pub use msid_value::{put_msid, read_msid};
pub use rid_direction::RidDirection;
pub use rid_line::RidLine;
pub use rid_value::{put_rid, read_rid};
pub use rtpmap::Rtpmap;
pub use rtpmap_value::{put_rtpmap, read_rtpmap};
pub use simulcast_line::SimulcastLine;
pub use simulcast_value::{put_simulcast, read_simulcast};
pub use ssrc_name::SsrcName;
pub use ssrc_value::{put_ssrc_msid, put_ssrc_name, put_ssrc_pair, read_ssrc_name, read_ssrc_pair};
pub use word_value::{read_password, read_sctp_init, read_setup, read_ufrag};
