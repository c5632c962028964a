//! An offer that a peer is given in its turn.

/// The text of an offer, and what the answer of a peer that it is given is to carry.
#[derive(Drop)]
pub struct Turn {
    pub offer: String,
    pub told: String,
}
