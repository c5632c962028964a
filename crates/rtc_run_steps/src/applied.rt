//! What becomes of staged changes.
use rtc_change::SdpPendingOffer;
use rtc_lines::SdpOffer;

/// What a step made of the changes that it staged, with the offer and its token if one was made.
#[derive(Drop)]
pub enum Applied {
    NotAsked,
    Nothing,
    Offer(SdpOffer, SdpPendingOffer),
    Alloc,
}
