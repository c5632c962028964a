//! How VP9 frames are cut into packets.

/// Whether each VP9 packet names the frames that it refers to (RFC 9628, section 4.2).
#[derive(Clone, Copy, Debug, PartialEq, Eq)]
pub enum Vp9PacketizerMode {
    NonFlexible,
    Flexible,
}
