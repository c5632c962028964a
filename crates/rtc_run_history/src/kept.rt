//! Session descriptions that a pair keeps.
use crate::Side;
use rtc_change::SdpPendingOffer;
use rtc_sdp_values::Sdp;

/// A session description as the peer at `at` made it. An offer keeps its token until an answer consumes it.
#[derive(Debug)]
pub struct Kept {
    pub at: Side,
    pub offer: bool,
    pub sdp: Sdp,
    pub token: Option<SdpPendingOffer>,
}

// Written out, so that the proof of what owns what is kept sees one call and not the drop of each field.
impl Drop for Kept {
    fn drop(self) {
        let Kept {
            at: _at,
            offer: _offer,
            sdp: _sdp,
            token: _token,
        } = self;
    }
}
