//! What examples ask of a configuration.
use rtc_config::RtcConfig;
use rtc_sdp_values::{Extension, PayloadRow};
use std::alloc::{AllocError, Global};

/// A codec by its name, as a configuration enables it, or disables H264.
#[derive(Clone, Copy)]
pub enum Named {
    Opus,
    Pcmu,
    Pcma,
    G722,
    ComfortNoise,
    AmrWb,
    Vp8,
    H264(bool),
    H265,
    H266,
    Vp9,
    Av1,
}

/// What examples ask of a configuration. A function over it may own one, and return early, at no cost.
pub trait Config: Sized {
    /// It without codecs.
    fn without_codecs(self) -> Self;

    /// It with a codec that is enabled or disabled.
    fn with_codec(self, codec: Named) -> Result<Self, AllocError>;

    /// It with distances at which packets are repeated, the audio level by the number 4, and datagrams that are kept to 900 bytes, with a
    /// warning above 1400.
    fn with_settings(self, distances: &[u32]) -> Result<Self, AllocError>;

    /// The size that datagrams are kept to, and the one above which a datagram is worth a warning.
    fn datagram_sizes(&self) -> (usize, usize);

    /// Its codecs.
    fn rows(&self) -> &[PayloadRow];

    /// The distances at which it repeats packets.
    fn distances(&self) -> &[u32];

    /// Its extensions.
    fn extension_rows(&self) -> &[(u8, Extension)];
}

/// The configuration of a peer.
pub fn fresh(alloc: Global) -> Result<RtcConfig, AllocError> {
    RtcConfig::new(alloc)
}
