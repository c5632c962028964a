//! What becomes of the changes that a peer is to offer.
use rtc::{RtcError, SdpOffer, SdpPendingOffer};

/// What a peer made of the changes that it was to offer.
#[derive(Drop)]
pub enum Made {
    /// An offer, with its token.
    Offer(SdpOffer, SdpPendingOffer),
    /// Nothing that an offer carries.
    Nothing,
    Failed(RtcError),
}
