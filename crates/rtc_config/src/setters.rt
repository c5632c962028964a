//! Setters of the parts beside media.
ghost use Rattle.std.specs.Prelude.{◌≡◌, ◌≤◌, Some, vec_len};

use crate::RtcConfig;
use rtc_parts::DtlsVersion;
use rtc_sdp_values::IceCreds;
use rtc_wire::{Bytes, Span};

impl RtcConfig {
    /// The credentials of the ICE agent, in place of drawn ones.
    pub fn set_local_ice_credentials(mut self, credentials: IceCreds) -> RtcConfig
        ensures { result ≡ record self { ice = record self.ice { credentials = Some credentials } } }
    {
        self.ice.credentials = Some(credentials);
        self
    }

    /// The certificate, in place of a drawn one. It has at most 1900 bytes.
    pub fn set_dtls_cert(mut self, cert: Vec<u8>) -> RtcConfig
        requires { vec_len cert ≤ 1900 }
        ensures { result ≡ record self { dtls = record self.dtls { cert = Some cert.items } } }
    {
        self.dtls.cert = Some(Bytes::new(cert));
        self
    }

    /// Whether the other side's certificate has to match its announced fingerprint.
    pub fn set_fingerprint_verification(mut self, enabled: bool) -> RtcConfig
        ensures { result ≡ record self { dtls = record self.dtls { fingerprint_verification = enabled } } }
    {
        self.dtls.fingerprint_verification = enabled;
        self
    }

    /// Whether the ICE agent is a lite one (RFC 8445, section 2.5).
    pub fn set_ice_lite(mut self, enabled: bool) -> RtcConfig
        ensures { result ≡ record self { ice = record self.ice { lite = enabled } } }
    {
        self.ice.lite = enabled;
        self
    }

    /// Time until a check is sent again for the first time (RFC 8445, section 14.3).
    pub fn set_initial_stun_rto(&mut self, rto: Span)
        ensures { self.new ≡ record self.old { ice = record self.old.ice { initial_stun_rto = rto } } }
    {
        self.ice.initial_stun_rto = rto;
    }

    /// The longest time until a check is sent again.
    pub fn set_max_stun_rto(&mut self, rto: Span)
        ensures { self.new ≡ record self.old { ice = record self.old.ice { max_stun_rto = rto } } }
    {
        self.ice.max_stun_rto = rto;
    }

    /// How often a check is sent again at most.
    pub fn set_max_stun_retransmits(&mut self, count: u32)
        ensures { self.new ≡ record self.old { ice = record self.old.ice { max_stun_retransmits = count } } }
    {
        self.ice.max_stun_retransmits = count;
    }

    /// The time between two rounds of statistics; None reports none.
    pub fn set_stats_interval(mut self, interval: Option<Span>) -> RtcConfig
        ensures { result ≡ record self { stats_interval = interval } }
    {
        self.stats_interval = interval;
        self
    }

    /// How many bytes may be buffered before writes are refused.
    pub fn set_sctp_max_buffered_amount(mut self, size: usize) -> RtcConfig
        ensures { result ≡ record self { sctp = record self.sctp { max_buffered_amount = size } } }
    {
        self.sctp.max_buffered_amount = size;
        self
    }

    /// The largest message that this side accepts, in bytes (RFC 8841, section 6). Descriptions carry it as it is, and
    /// Chromium refuses those that carry more than 2^31 - 1.
    pub fn set_sctp_max_message_size(mut self, size: u32) -> RtcConfig
        ensures { result ≡ record self { sctp = record self.sctp { max_message_size = size } } }
    {
        self.sctp.max_message_size = size;
        self
    }

    /// Whether the association's first chunks are exchanged in session descriptions.
    pub fn set_snap_enabled(mut self, enabled: bool) -> RtcConfig
        ensures { result ≡ record self { sctp = record self.sctp { snap_enabled = enabled } } }
    {
        self.sctp.snap_enabled = enabled;
        self
    }

    /// The version of DTLS.
    pub fn set_dtls_version(mut self, version: DtlsVersion) -> RtcConfig
        ensures { result ≡ record self { dtls = record self.dtls { version = version } } }
    {
        self.dtls.version = version;
        self
    }

    /// The role of the peer on glare (RFC 3264, section 4): a polite one may roll its own offer back, an impolite one
    /// refuses the other. With None any offer is accepted, and the peer's own one is invalidated.
    pub fn set_polite(mut self, role: Option<bool>) -> RtcConfig
        ensures { result ≡ record self { polite = role } }
    {
        self.polite = role;
        self
    }

    /// The size that datagrams are kept to, and the one above which a datagram is worth a warning, both in bytes.
    pub fn set_mtu(mut self, sizes: (usize, usize)) -> RtcConfig
        requires least { 576 ≤ sizes.0 }
        requires most { sizes.0 ≤ 1400 }
        requires ordered { sizes.0 ≤ sizes.1 }
        ensures { result ≡ record self { mtu = sizes } }
    {
        self.mtu = sizes;
        self
    }
}
