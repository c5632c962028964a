//! What signalling brings.
use rtc_sdp_values::Sdp;

/// What signalling delivers of an offer or an answer, by its number.
#[derive(Drop)]
pub enum Brought {
    /// The other side made no such session description.
    NotMade,
    /// The first line that refuses what was written of it.
    Unreadable(u32),
    Readable(Sdp),
    Alloc,
}
