//! Configurations of peers.
ghost use Rattle.std.specs.Prelude.{◌≡◌, IfOk, nat_eq};
ghost use Rattle.std.specs.Bool.{beq};
ghost use Rattle.std.specs.Cmp.{and_equiv, bool_eq_equiv, nat_eq_equiv, on_equiv, partial_equiv_from_equiv};
ghost use Rattle.std.specs.Cmp.Lexicographic.{options_equiv};
ghost use Rattle.std.specs.Option.{option_eq};
ghost use Rattle.std.specs.Ordering.{on, eq_of_both};
ghost use Rattle.rtc_sdp_codecs.specs.FormedCodecs.{AreFormedRows, AreFormedExtensions};
ghost use Rattle.rtc_config.specs.RtcConfig as spec;

use crate::{DtlsSettings, IceSettings, SctpSettings};
use rtc_parts::{DtlsVersion, MediaSettings, Vp9PacketizerMode};
use rtc_sdp_codecs::make_default_codecs;
use rtc_sdp_values::{CodecConfig, ExtensionMap};
use rtc_wire::{
    DATAGRAM_MTU_TARGET, DATAGRAM_MTU_WARN, DEFAULT_MAX_BUFFERED_AMOUNT, LOCAL_MAX_MESSAGE_SIZE,
    Span, TryCopy,
};
use std::alloc::{AllocError, Global};
use std::marker::Model;

/// What a peer is built from.
#[derive(Debug)]
pub struct RtcConfig {
    pub(crate) alloc: Global,
    pub(crate) ice: IceSettings,
    pub(crate) dtls: DtlsSettings,
    pub(crate) codecs: CodecConfig,
    pub(crate) extensions: ExtensionMap,
    pub(crate) session_extension_ids: bool,
    pub(crate) stats_interval: Option<Span>,
    pub(crate) media: MediaSettings,
    pub(crate) sctp: SctpSettings,
    pub(crate) mtu: (usize, usize),
    pub(crate) polite: Option<bool>,
}

impl Model for RtcConfig {
    ghost use Rattle.rtc_config.specs.RtcConfig.{PeerConfig, IsShortCert, AreMediaSettings, IsMtu};

    ghost Value = { PeerConfig };

    ghost view = { λ config. record {
      ice = config.ice;
      dtls = config.dtls;
      codecs = config.codecs;
      extensions = config.extensions;
      session_extension_ids = config.session_extension_ids;
      stats_interval = config.stats_interval;
      media = config.media;
      sctp = config.sctp;
      mtu = config.mtu;
      polite = config.polite;
    } };

    ghost invariant = { λ config. IsShortCert config.dtls.cert × AreMediaSettings config.media × IsMtu config.mtu };
}

// Two configurations are equal if all that is set is.
impl PartialEq for RtcConfig {
    ghost use Rattle.rtc_config.specs.contracts.ice_settings.IceSettingsPartialEq.TheImpl as ice_eq;
    ghost use Rattle.rtc_config.specs.contracts.dtls_settings.DtlsSettingsPartialEq.TheImpl as dtls_eq;
    ghost use Rattle.rtc_sdp_values.specs.contracts.codec_config.CodecConfigPartialEq.TheImpl as codecs_eq;
    ghost use Rattle.rtc_sdp_values.specs.contracts.extension_map.ExtensionMapPartialEq.TheImpl as extensions_eq;
    ghost use Rattle.rtc_parts.specs.contracts.media_settings.MediaSettingsPartialEq.TheImpl as media_eq;
    ghost use Rattle.rtc_config.specs.contracts.sctp_settings.SctpSettingsPartialEq.TheImpl as sctp_eq;
    ghost use Rattle.rtc_config.specs.contracts.ice_settings.IceSettingsEq.TheImpl.Laws as ice_laws;
    ghost use Rattle.rtc_config.specs.contracts.dtls_settings.DtlsSettingsEq.TheImpl.Laws as dtls_laws;
    ghost use Rattle.rtc_sdp_values.specs.contracts.codec_config.CodecConfigEq.TheImpl.Laws as codecs_laws;
    ghost use Rattle.rtc_sdp_values.specs.contracts.extension_map.ExtensionMapEq.TheImpl.Laws as extensions_laws;
    ghost use Rattle.rtc_parts.specs.contracts.media_settings.MediaSettingsEq.TheImpl.Laws as media_laws;
    ghost use Rattle.rtc_config.specs.contracts.sctp_settings.SctpSettingsEq.TheImpl.Laws as sctp_laws;

    ghost eq = { eq_of_both (on (λ c. c.ice) (ice_eq.ghosts).eq)
        (eq_of_both (on (λ c. c.dtls) (dtls_eq.ghosts).eq)
        (eq_of_both (on (λ c. c.codecs) (codecs_eq.ghosts).eq)
        (eq_of_both (on (λ c. c.extensions) (extensions_eq.ghosts).eq)
        (eq_of_both (on (λ c. c.stats_interval) (option_eq nat_eq))
        (eq_of_both (on (λ c. c.media) (media_eq.ghosts).eq)
        (eq_of_both (on (λ c. c.sctp) (sctp_eq.ghosts).eq)
        (eq_of_both (on (λ c. c.mtu.0) nat_eq)
        (eq_of_both (on (λ c. c.mtu.1) nat_eq)
        (eq_of_both (on (λ c. c.polite) (option_eq beq))
        (on (λ c. c.session_extension_ids) beq)))))))))) };

    ghost laws = { partial_equiv_from_equiv (and_equiv (on_equiv (λ c. c.ice) ice_laws.laws-law)
        (and_equiv (on_equiv (λ c. c.dtls) dtls_laws.laws-law)
        (and_equiv (on_equiv (λ c. c.codecs) codecs_laws.laws-law)
        (and_equiv (on_equiv (λ c. c.extensions) extensions_laws.laws-law)
        (and_equiv (on_equiv (λ c. c.stats_interval) (options_equiv nat_eq_equiv))
        (and_equiv (on_equiv (λ c. c.media) media_laws.laws-law)
        (and_equiv (on_equiv (λ c. c.sctp) sctp_laws.laws-law)
        (and_equiv (on_equiv (λ c. c.mtu.0) nat_eq_equiv)
        (and_equiv (on_equiv (λ c. c.mtu.1) nat_eq_equiv)
        (and_equiv (on_equiv (λ c. c.polite) (options_equiv bool_eq_equiv))
        (on_equiv (λ c. c.session_extension_ids) bool_eq_equiv))))))))))) };

    fn eq(&self, other: &RtcConfig) -> bool {
        self.ice == other.ice
            && self.dtls == other.dtls
            && self.codecs == other.codecs
            && self.extensions == other.extensions
            && self.stats_interval == other.stats_interval
            && self.media == other.media
            && self.sctp == other.sctp
            && self.mtu.0 == other.mtu.0
            && self.mtu.1 == other.mtu.1
            && self.polite == other.polite
            && self.session_extension_ids == other.session_extension_ids
    }
}

impl Eq for RtcConfig {
    ghost use Rattle.rtc_config.specs.contracts.ice_settings.IceSettingsEq.TheImpl.Laws as ice_laws;
    ghost use Rattle.rtc_config.specs.contracts.dtls_settings.DtlsSettingsEq.TheImpl.Laws as dtls_laws;
    ghost use Rattle.rtc_sdp_values.specs.contracts.codec_config.CodecConfigEq.TheImpl.Laws as codecs_laws;
    ghost use Rattle.rtc_sdp_values.specs.contracts.extension_map.ExtensionMapEq.TheImpl.Laws as extensions_laws;
    ghost use Rattle.rtc_parts.specs.contracts.media_settings.MediaSettingsEq.TheImpl.Laws as media_laws;
    ghost use Rattle.rtc_config.specs.contracts.sctp_settings.SctpSettingsEq.TheImpl.Laws as sctp_laws;

    ghost laws = { and_equiv (on_equiv (λ c. c.ice) ice_laws.laws-law)
        (and_equiv (on_equiv (λ c. c.dtls) dtls_laws.laws-law)
        (and_equiv (on_equiv (λ c. c.codecs) codecs_laws.laws-law)
        (and_equiv (on_equiv (λ c. c.extensions) extensions_laws.laws-law)
        (and_equiv (on_equiv (λ c. c.stats_interval) (options_equiv nat_eq_equiv))
        (and_equiv (on_equiv (λ c. c.media) media_laws.laws-law)
        (and_equiv (on_equiv (λ c. c.sctp) sctp_laws.laws-law)
        (and_equiv (on_equiv (λ c. c.mtu.0) nat_eq_equiv)
        (and_equiv (on_equiv (λ c. c.mtu.1) nat_eq_equiv)
        (and_equiv (on_equiv (λ c. c.polite) (options_equiv bool_eq_equiv))
        (on_equiv (λ c. c.session_extension_ids) bool_eq_equiv)))))))))) };
}

// Written out, so that the proof of what owns a configuration sees one call and not the drop of each field.
impl Drop for RtcConfig {
    fn drop(self) {
        let RtcConfig {
            alloc: _alloc,
            ice: _ice,
            dtls: _dtls,
            codecs: _codecs,
            extensions: _extensions,
            session_extension_ids: _session_extension_ids,
            stats_interval: _stats_interval,
            media: _media,
            sctp: _sctp,
            mtu: _mtu,
            polite: _polite,
        } = self;
    }
}

// The default settings of the ICE part.
fn default_ice() -> IceSettings
    ensures { result ≡ spec.default_ice }
{
    IceSettings {
        credentials: None,
        lite: false,
        initial_stun_rto: Span::from_millis(250),
        max_stun_rto: Span::from_secs(3),
        max_stun_retransmits: 9,
    }
}

// The default settings of the media part.
fn default_media() -> MediaSettings
    ensures { result ≡ spec.default_media }
{
    MediaSettings {
        rtp_mode: false,
        raw_packets: false,
        report_audio: Span::from_secs(5),
        report_video: Span::from_secs(1),
        reordering_audio: 15,
        reordering_video: 30,
        reordering_timeout_audio: Some(Span::from_secs(1)),
        pause_threshold: Span::from_millis(1500),
        send_buffer_audio: 50,
        send_buffer_video: 1000,
        vp9: Vp9PacketizerMode::NonFlexible,
    }
}

// The default settings of the association.
fn default_sctp() -> SctpSettings
    ensures { result ≡ spec.default_sctp }
{
    SctpSettings {
        max_buffered_amount: DEFAULT_MAX_BUFFERED_AMOUNT,
        max_message_size: LOCAL_MAX_MESSAGE_SIZE,
        snap_enabled: false,
    }
}

#[tactic(auto, unfolding(crate::specs::RtcConfig::unset_codecs))]
fn default_codecs(alloc: Global) -> Result<CodecConfig, AllocError>
    ensures { IfOk result (λ codecs. codecs ≡ spec.unset_codecs) }
{
    make_default_codecs(alloc)
}

#[tactic(auto, unfolding(crate::specs::RtcConfig::unset_extensions))]
fn default_extensions(alloc: Global) -> Result<ExtensionMap, AllocError>
    ensures { IfOk result (λ extensions. extensions ≡ spec.unset_extensions) }
{
    ExtensionMap::standard(alloc)
}

impl RtcConfig {
    /// The default: an agent that makes checks; drawn credentials and certificate; DTLS 1.2 with verification; the
    /// default codecs and header extensions; no statistics; no SNAP.
    pub fn new(alloc: Global) -> Result<RtcConfig, AllocError>
        ensures value { IfOk result (λ config. config ≡ spec.default_config) }
        ensures codecs { IfOk result (λ config. AreFormedRows config.codecs.rows) }
        ensures extensions { IfOk result (λ config. AreFormedExtensions config.extensions.rows) }
    {
        let codecs = default_codecs(alloc)?;
        let extensions = default_extensions(alloc)?;
        Ok(RtcConfig {
            alloc,
            ice: default_ice(),
            dtls: DtlsSettings {
                cert: None,
                version: DtlsVersion::Dtls12,
                fingerprint_verification: true,
            },
            codecs,
            extensions,
            session_extension_ids: false,
            stats_interval: None,
            media: default_media(),
            sctp: default_sctp(),
            mtu: (DATAGRAM_MTU_TARGET, DATAGRAM_MTU_WARN),
            polite: None,
        })
    }

    /// The codecs and the header extensions, which are all that is kept of the configuration.
    pub fn into_formats(self) -> (CodecConfig, ExtensionMap)
        ensures { result ≡ (self.codecs, self.extensions) }
    {
        let RtcConfig {
            alloc: _,
            ice: _,
            dtls: _,
            codecs,
            extensions,
            session_extension_ids: _,
            stats_interval: _,
            media: _,
            sctp: _,
            mtu: _,
            polite: _,
        } = self;
        (codecs, extensions)
    }
}

impl TryCopy for RtcConfig {
    fn copy(&self) -> Result<RtcConfig, AllocError> {
        let ice = self.ice.copy()?;
        let dtls = self.dtls.copy()?;
        let codecs = self.codecs.copy()?;
        let extensions = self.extensions.copy()?;
        Ok(RtcConfig {
            alloc: self.alloc,
            ice,
            dtls,
            codecs,
            extensions,
            session_extension_ids: self.session_extension_ids,
            stats_interval: self.stats_interval,
            media: self.media,
            sctp: self.sctp,
            mtu: self.mtu,
            polite: self.polite,
        })
    }
}
