//! What is made ready before parts are touched.
use crate::following::Following;
use crate::starting::Starting;
use rtc_sdp_values::{Fingerprint, Sdp};

/// What an acceptance makes ready before the ICE agent and the DTLS part are touched: all that takes memory.
#[derive(Drop)]
pub struct Growth {
    /// The answer to an offer.
    pub answer: Option<Sdp>,
    pub following: Following,
    pub starting: Starting,
    /// The fingerprint that was announced first.
    pub fingerprint: Option<Fingerprint>,
}
