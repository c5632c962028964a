//! The line that begins a line part.
use rtc_sdp_values::LineKind;
use rtc_wire::Seq;

/// What an `m=` line says by itself (RFC 8866, section 5.14).
#[derive(Debug, Drop)]
pub struct MediaHead {
    pub kind: LineKind,
    /// The port is 0.
    pub disabled: bool,
    /// The payload types of audio and video, each once.
    pub formats: Seq<u8>,
}
