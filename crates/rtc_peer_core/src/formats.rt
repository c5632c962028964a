//! The codecs and header extensions of a peer.
use rtc_sdp_values::{CodecConfig, ExtensionMap};

/// What a peer offers on its media lines, and takes on those of the other side.
#[derive(Debug, PartialEq, Eq)]
pub struct Formats {
    pub codecs: CodecConfig,
    pub extensions: ExtensionMap,
    /// Whether lines that it adds take the extension numbers that the session uses.
    pub session_ids: bool,
}

// Written out, so that the proof of what owns them sees one call and not the drop of each field.
impl Drop for Formats {
    fn drop(self) {
        let Formats {
            codecs: _codecs,
            extensions: _extensions,
            session_ids: _session_ids,
        } = self;
    }
}
