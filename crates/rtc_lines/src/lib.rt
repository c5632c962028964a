//! Offers and answers, and the values that they are made of.
#![tactic(auto)]

mod laws;
mod offered_formats;
mod rejecting;
mod sdp_answer;
mod sdp_offer;
mod sdp_text;

pub use laws::skipped_lines_change_nothing;
pub use rtc_sdp_values::{
    Candidate, CandidateKind, CodecConfig, Direction, Extension, ExtensionMap, Fingerprint,
    IceCreds, Inconsistent, LineKind, LineRow, MediaKind, MediaLine, Mid, Msid, PayloadRow, Pt,
    Rid, Sdp, SdpError, Setup, Simulcast, SimulcastLayer, Ssrc,
};
pub use sdp_answer::SdpAnswer;
pub use sdp_offer::SdpOffer;
