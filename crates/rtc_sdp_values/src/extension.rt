//! Header extensions.
ghost use Rattle.std.specs.Prelude.{◌≡◌};
ghost use Rattle.std.specs.Str.{bytes_eq};
ghost use Rattle.rtc_sdp_values.specs.Extension as spec;

use rtc_wire::TryCopy;
use std::alloc::AllocError;

/// A header extension that an RTP packet may carry (RFC 8285).
#[derive(Clone, Copy, Debug, PartialEq, Eq)]
pub enum Extension {
    AudioLevel,
    AbsoluteSendTime,
    TransportSequenceNumber,
    RtpMid,
    RtpStreamId,
    RepairedRtpStreamId,
    VideoOrientation,
}

impl Extension {
    /// The URI that names it in a session description.
    pub fn uri(self) -> &'static str
        ensures { result.now ≡ spec.uri_of self }
    {
        match self {
            Extension::AudioLevel => "urn:ietf:params:rtp-hdrext:ssrc-audio-level",
            Extension::AbsoluteSendTime => {
                "http://www.webrtc.org/experiments/rtp-hdrext/abs-send-time"
            }
            Extension::TransportSequenceNumber => {
                "http://www.ietf.org/id/draft-holmer-rmcat-transport-wide-cc-extensions-01"
            }
            Extension::RtpMid => "urn:ietf:params:rtp-hdrext:sdes:mid",
            Extension::RtpStreamId => "urn:ietf:params:rtp-hdrext:sdes:rtp-stream-id",
            Extension::RepairedRtpStreamId => {
                "urn:ietf:params:rtp-hdrext:sdes:repaired-rtp-stream-id"
            }
            Extension::VideoOrientation => "urn:3gpp:video-orientation",
        }
    }

    fn is_named(self, uri: &str) -> bool
        ensures { result ≡ bytes_eq uri.now (spec.uri_of self) }
    {
        uri == self.uri()
    }

    /// The extension that a URI names, if it is one of these.
    #[tactic(auto, unfolding(crate::specs::Extension::of_uri))]
    pub fn from_uri(uri: &str) -> Option<Extension>
        ensures { result ≡ spec.of_uri uri.now }
    {
        if Extension::AudioLevel.is_named(uri) {
            Some(Extension::AudioLevel)
        } else if Extension::AbsoluteSendTime.is_named(uri) {
            Some(Extension::AbsoluteSendTime)
        } else if Extension::TransportSequenceNumber.is_named(uri) {
            Some(Extension::TransportSequenceNumber)
        } else if Extension::RtpMid.is_named(uri) {
            Some(Extension::RtpMid)
        } else if Extension::RtpStreamId.is_named(uri) {
            Some(Extension::RtpStreamId)
        } else if Extension::RepairedRtpStreamId.is_named(uri) {
            Some(Extension::RepairedRtpStreamId)
        } else if Extension::VideoOrientation.is_named(uri) {
            Some(Extension::VideoOrientation)
        } else {
            None
        }
    }

    /// Whether a line of audio has it.
    pub fn is_audio(self) -> bool
        ensures { result ≡ spec.suits_audio self }
    {
        match self {
            Extension::AudioLevel
            | Extension::AbsoluteSendTime
            | Extension::TransportSequenceNumber
            | Extension::RtpMid => true,
            Extension::RtpStreamId | Extension::RepairedRtpStreamId | Extension::VideoOrientation =>
                false,
        }
    }

    /// Whether a line of video has it.
    pub fn is_video(self) -> bool
        ensures { result ≡ spec.suits_video self }
    {
        match self {
            Extension::AudioLevel => false,
            Extension::AbsoluteSendTime
            | Extension::TransportSequenceNumber
            | Extension::RtpMid
            | Extension::RtpStreamId
            | Extension::RepairedRtpStreamId
            | Extension::VideoOrientation => true,
        }
    }
}

impl TryCopy for Extension {
    fn copy(&self) -> Result<Extension, AllocError> {
        Ok(*self)
    }
}
