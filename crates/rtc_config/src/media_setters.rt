//! Setters of the media part.
ghost use Rattle.std.specs.Prelude.{◌≡◌, ◌<◌};

use crate::RtcConfig;
use rtc_parts::Vp9PacketizerMode;
use rtc_wire::Span;

impl RtcConfig {
    /// Time between reports on audio (RFC 3550, section 6.2).
    pub fn set_rtcp_report_interval_audio(mut self, interval: Span) -> RtcConfig
        requires { 0 < interval }
        ensures { result ≡ record self { media = record self.media { report_audio = interval } } }
    {
        self.media.report_audio = interval;
        self
    }

    /// Time between reports on video.
    pub fn set_rtcp_report_interval_video(mut self, interval: Span) -> RtcConfig
        requires { 0 < interval }
        ensures { result ≡ record self { media = record self.media { report_video = interval } } }
    {
        self.media.report_video = interval;
        self
    }

    /// How many packets of audio are held back to put them in order.
    pub fn set_reordering_size_audio(mut self, count: usize) -> RtcConfig
        ensures { result ≡ record self { media = record self.media { reordering_audio = count } } }
    {
        self.media.reordering_audio = count;
        self
    }

    /// How many packets of video are held back to put them in order.
    pub fn set_reordering_size_video(mut self, count: usize) -> RtcConfig
        ensures { result ≡ record self { media = record self.media { reordering_video = count } } }
    {
        self.media.reordering_video = count;
        self
    }

    /// How long packets of audio are held back; None sets no limit.
    pub fn set_reordering_timeout_audio(mut self, timeout: Option<Span>) -> RtcConfig
        ensures { result ≡ record self { media = record self.media { reordering_timeout_audio = timeout } } }
    {
        self.media.reordering_timeout_audio = timeout;
        self
    }

    /// After this time without packets a stream is paused.
    pub fn set_pause_threshold(mut self, threshold: Span) -> RtcConfig
        ensures { result ≡ record self { media = record self.media { pause_threshold = threshold } } }
    {
        self.media.pause_threshold = threshold;
        self
    }

    /// How many packets of audio are kept for retransmission.
    pub fn set_send_buffer_audio(mut self, count: usize) -> RtcConfig
        requires { 0 < count }
        ensures { result ≡ record self { media = record self.media { send_buffer_audio = count } } }
    {
        self.media.send_buffer_audio = count;
        self
    }

    /// How many packets of video are kept for retransmission.
    pub fn set_send_buffer_video(mut self, count: usize) -> RtcConfig
        requires { 0 < count }
        ensures { result ≡ record self { media = record self.media { send_buffer_video = count } } }
    {
        self.media.send_buffer_video = count;
        self
    }

    /// Whether callers send and receive packets in place of samples.
    pub fn set_rtp_mode(mut self, enabled: bool) -> RtcConfig
        ensures { result ≡ record self { media = record self.media { rtp_mode = enabled } } }
    {
        self.media.rtp_mode = enabled;
        self
    }

    /// Whether raw packets are reported as events, too.
    pub fn enable_raw_packets(mut self, enabled: bool) -> RtcConfig
        ensures { result ≡ record self { media = record self.media { raw_packets = enabled } } }
    {
        self.media.raw_packets = enabled;
        self
    }

    /// How VP9 frames are cut into packets.
    pub fn set_vp9_packetizer_mode(mut self, mode: Vp9PacketizerMode) -> RtcConfig
        ensures { result ≡ record self { media = record self.media { vp9 = mode } } }
    {
        self.media.vp9 = mode;
        self
    }
}
