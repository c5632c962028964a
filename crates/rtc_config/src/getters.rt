//! Getters.
ghost use Rattle.std.specs.Prelude.{◌≡◌};
ghost use Rattle.std.specs.Option.{option_copied};
ghost use Rattle.rtc_config.specs.RtcConfig.{IsShortCert, AreMediaSettings, IsMtu};

use crate::RtcConfig;
use rtc_parts::{DtlsVersion, MediaSettings, Vp9PacketizerMode};
use rtc_sdp_values::{CodecConfig, ExtensionMap, IceCreds};
use rtc_wire::Span;

impl RtcConfig {
    /// The credentials that were set.
    pub fn local_ice_credentials(&self) -> &Option<IceCreds>
        ensures { result.now ≡ self.now.ice.credentials }
    {
        &self.ice.credentials
    }

    /// The certificate that was set.
    pub fn dtls_cert(&self) -> Option<&[u8]>
        ensures value { option_copied result ≡ self.now.dtls.cert }
        ensures short { IsShortCert self.now.dtls.cert }
    {
        match &self.dtls.cert {
            Some(cert) => Some(cert.as_slice()),
            None => None,
        }
    }

    /// The codecs.
    pub fn codecs(&self) -> &CodecConfig
        ensures { result.now ≡ self.now.codecs }
    {
        &self.codecs
    }

    /// The header extensions.
    pub fn extensions(&self) -> &ExtensionMap
        ensures { result.now ≡ self.now.extensions }
    {
        &self.extensions
    }

    /// Whether lines that this side adds take the header extension numbers that the session uses.
    pub fn session_extension_ids(&self) -> bool
        ensures { result ≡ self.now.session_extension_ids }
    {
        self.session_extension_ids
    }

    /// Whether the other side's certificate has to match its announced fingerprint.
    pub fn fingerprint_verification(&self) -> bool
        ensures { result ≡ self.now.dtls.fingerprint_verification }
    {
        self.dtls.fingerprint_verification
    }

    /// Whether the ICE agent is a lite one (RFC 8445, section 2.5).
    pub fn ice_lite(&self) -> bool
        ensures { result ≡ self.now.ice.lite }
    {
        self.ice.lite
    }

    /// Time until a check is sent again for the first time (RFC 8445, section 14.3).
    pub fn initial_stun_rto(&self) -> Span
        ensures { result ≡ self.now.ice.initial_stun_rto }
    {
        self.ice.initial_stun_rto
    }

    /// The longest time until a check is sent again.
    pub fn max_stun_rto(&self) -> Span
        ensures { result ≡ self.now.ice.max_stun_rto }
    {
        self.ice.max_stun_rto
    }

    /// How often a check is sent again at most.
    pub fn max_stun_retransmits(&self) -> u32
        ensures { result ≡ self.now.ice.max_stun_retransmits }
    {
        self.ice.max_stun_retransmits
    }

    /// The time between two rounds of statistics; None reports none.
    pub fn stats_interval(&self) -> Option<Span>
        ensures { result ≡ self.now.stats_interval }
    {
        self.stats_interval
    }

    /// Time between reports on audio (RFC 3550, section 6.2).
    pub fn rtcp_report_interval_audio(&self) -> Span
        ensures { result ≡ self.now.media.report_audio }
    {
        self.media.report_audio
    }

    /// Time between reports on video (RFC 3550, section 6.2).
    pub fn rtcp_report_interval_video(&self) -> Span
        ensures { result ≡ self.now.media.report_video }
    {
        self.media.report_video
    }

    /// How many packets of audio are held back to put them in order.
    pub fn reordering_size_audio(&self) -> usize
        ensures { result ≡ self.now.media.reordering_audio }
    {
        self.media.reordering_audio
    }

    /// How many packets of video are held back to put them in order.
    pub fn reordering_size_video(&self) -> usize
        ensures { result ≡ self.now.media.reordering_video }
    {
        self.media.reordering_video
    }

    /// How long packets of audio are held back; None sets no limit.
    pub fn reordering_timeout_audio(&self) -> Option<Span>
        ensures { result ≡ self.now.media.reordering_timeout_audio }
    {
        self.media.reordering_timeout_audio
    }

    /// After this time without packets a stream is paused.
    pub fn pause_threshold(&self) -> Span
        ensures { result ≡ self.now.media.pause_threshold }
    {
        self.media.pause_threshold
    }

    /// How many packets of audio are kept for retransmission.
    pub fn send_buffer_audio(&self) -> usize
        ensures { result ≡ self.now.media.send_buffer_audio }
    {
        self.media.send_buffer_audio
    }

    /// How many packets of video are kept for retransmission.
    pub fn send_buffer_video(&self) -> usize
        ensures { result ≡ self.now.media.send_buffer_video }
    {
        self.media.send_buffer_video
    }

    /// How many bytes may be buffered before writes are refused.
    pub fn sctp_max_buffered_amount(&self) -> usize
        ensures { result ≡ self.now.sctp.max_buffered_amount }
    {
        self.sctp.max_buffered_amount
    }

    /// The largest message that this side accepts, in bytes (RFC 8841, section 6).
    pub fn sctp_max_message_size(&self) -> u32
        ensures { result ≡ self.now.sctp.max_message_size }
    {
        self.sctp.max_message_size
    }

    /// Whether callers send and receive packets in place of samples.
    pub fn rtp_mode(&self) -> bool
        ensures { result ≡ self.now.media.rtp_mode }
    {
        self.media.rtp_mode
    }

    /// Whether raw packets are reported as events, too.
    pub fn raw_packets(&self) -> bool
        ensures { result ≡ self.now.media.raw_packets }
    {
        self.media.raw_packets
    }

    /// Whether the association's first chunks are exchanged in session descriptions.
    pub fn snap_enabled(&self) -> bool
        ensures { result ≡ self.now.sctp.snap_enabled }
    {
        self.sctp.snap_enabled
    }

    /// The version of DTLS.
    pub fn dtls_version(&self) -> DtlsVersion
        ensures { result ≡ self.now.dtls.version }
    {
        self.dtls.version
    }

    /// The size that datagrams are kept to, in bytes.
    pub fn mtu(&self) -> usize
        ensures size { result ≡ self.now.mtu.0 }
        ensures range { IsMtu self.now.mtu }
    {
        self.mtu.0
    }

    /// The size above which a datagram is worth a warning, in bytes.
    pub fn mtu_warn(&self) -> usize
        ensures { result ≡ self.now.mtu.1 }
    {
        self.mtu.1
    }

    /// The role of the peer on glare, if one is set: whether it is the polite one.
    pub fn polite(&self) -> Option<bool>
        ensures { result ≡ self.now.polite }
    {
        self.polite
    }

    /// How VP9 frames are cut into packets.
    pub fn vp9_packetizer_mode(&self) -> Vp9PacketizerMode
        ensures { result ≡ self.now.media.vp9 }
    {
        self.media.vp9
    }

    /// The settings of the media part, all at once.
    pub fn media_settings(&self) -> MediaSettings
        ensures value { result ≡ self.now.media }
        ensures range { AreMediaSettings self.now.media }
    {
        self.media
    }
}
