//! Settings of the media part.
use crate::Vp9PacketizerMode;
use rtc_wire::Span;

/// What the configuration of a peer says to its media part.
#[derive(Clone, Copy, Debug, PartialEq, Eq)]
pub struct MediaSettings {
    /// Whether callers send and receive packets in place of samples.
    pub rtp_mode: bool,
    /// Whether raw packets are reported as events, too.
    pub raw_packets: bool,
    /// Time between reports on audio (RFC 3550, section 6.2).
    pub report_audio: Span,
    /// Time between reports on video.
    pub report_video: Span,
    /// Packets held back to put them in order.
    pub reordering_audio: usize,
    pub reordering_video: usize,
    pub reordering_timeout_audio: Option<Span>,
    /// After this time without packets a stream is paused.
    pub pause_threshold: Span,
    /// Packets kept for retransmission.
    pub send_buffer_audio: usize,
    pub send_buffer_video: usize,
    pub vp9: Vp9PacketizerMode,
}
