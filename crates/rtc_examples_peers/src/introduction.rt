//! Peers that learn of each other without session descriptions.
use rtc_peer::{Candidate, Fingerprint, IceCreds};

/// What a peer is given of another one, and its own credentials.
#[derive(Drop)]
pub struct Introduction {
    pub own: IceCreds,
    pub other: IceCreds,
    /// The fingerprint of the other side.
    pub announced: Fingerprint,
    /// An address of the other side.
    pub there: Candidate,
}
