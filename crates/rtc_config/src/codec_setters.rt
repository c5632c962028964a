//! Setters of codecs.
ghost use Rattle.std.specs.Prelude.{◌≡◌, [], false, IfOk, OnOk};
ghost use Rattle.rtc_sdp_codecs.specs.Codec.{codec_row_with};
ghost use Rattle.rtc_sdp_codecs.specs.CodecRows.{codecs_with, repeated_distances};
ghost use Rattle.rtc_config.specs.CodecSettings as spec;

use crate::RtcConfig;
use rtc_sdp_codecs::{Codec, collect_distances, set_row};
use rtc_sdp_values::CodecConfig;
use rtc_wire::Seq;
use rtc_wire_drops::whole;
use std::alloc::{AllocError, Global};
use std::mem;

fn no_codecs(alloc: Global) -> CodecConfig
    ensures { result ≡ record { rows = []; red_distances = [] } }
{
    CodecConfig {
        rows: Seq::empty(alloc),
        red_distances: Seq::empty(alloc),
    }
}

// An enabled codec becomes the last one; a disabled one is removed.
fn change_codecs(
    alloc: Global,
    codecs: &mut CodecConfig,
    codec: Codec,
    enabled: bool,
    red: bool,
) -> Result<(), AllocError>
    ensures { OnOk result (codecs.new ≡ codecs_with (codec_row_with red codec) enabled codecs.old) }
{
    let row = codec.row(alloc, red)?;
    let held = mem::replace(codecs, no_codecs(alloc));
    *codecs = set_row(held, row, enabled)?;
    Ok(())
}

// The distances of redundant packets in place of those that there are.
fn change_distances(
    alloc: Global,
    codecs: &mut CodecConfig,
    distances: &[u32],
) -> Result<(), AllocError>
    ensures { OnOk result (codecs.new ≡ record codecs.old { red_distances = repeated_distances distances.now }) }
{
    let distances = collect_distances(alloc, distances)?;
    codecs.red_distances = Seq::new(distances);
    Ok(())
}

impl RtcConfig {
    fn set_codec(mut self, codec: Codec, enabled: bool, red: bool) -> Result<RtcConfig, AllocError>
        ensures { IfOk result (λ config. config ≡ spec.codec_set codec enabled red self) }
    {
        let changed = change_codecs(self.alloc, &mut self.codecs, codec, enabled, red);
        whole(self, changed)
    }

    /// Drops every codec.
    pub fn clear_codecs(mut self) -> RtcConfig
        ensures { result ≡ record self { codecs = record self.codecs { rows = [] } } }
    {
        self.codecs.rows.clear();
        self
    }

    /// Enables or disables Opus (RFC 7587), with redundant packets (RFC 2198) if `red` is true.
    pub fn enable_opus(self, enabled: bool, red: bool) -> Result<RtcConfig, AllocError>
        ensures { IfOk result (λ config. config ≡ spec.codec_set Codec.Opus enabled red self) }
    {
        self.set_codec(Codec::Opus, enabled, red)
    }

    /// Enables or disables PCMU (RFC 3551, section 4.5.14), with redundant packets (RFC 2198) if `red` is true.
    pub fn enable_pcmu(self, enabled: bool, red: bool) -> Result<RtcConfig, AllocError>
        ensures { IfOk result (λ config. config ≡ spec.codec_set Codec.Pcmu enabled red self) }
    {
        self.set_codec(Codec::Pcmu, enabled, red)
    }

    /// Enables or disables PCMA (RFC 3551, section 4.5.14), with redundant packets (RFC 2198) if `red` is true.
    pub fn enable_pcma(self, enabled: bool, red: bool) -> Result<RtcConfig, AllocError>
        ensures { IfOk result (λ config. config ≡ spec.codec_set Codec.Pcma enabled red self) }
    {
        self.set_codec(Codec::Pcma, enabled, red)
    }

    /// Enables or disables G722 (RFC 3551, section 4.5.2), with redundant packets (RFC 2198) if `red` is true.
    pub fn enable_g722(self, enabled: bool, red: bool) -> Result<RtcConfig, AllocError>
        ensures { IfOk result (λ config. config ≡ spec.codec_set Codec.G722 enabled red self) }
    {
        self.set_codec(Codec::G722, enabled, red)
    }

    /// Enables or disables comfort noise (RFC 3389).
    pub fn enable_comfort_noise(self, enabled: bool) -> Result<RtcConfig, AllocError>
        ensures { IfOk result (λ config. config ≡ spec.codec_set Codec.ComfortNoise enabled false self) }
    {
        self.set_codec(Codec::ComfortNoise, enabled, false)
    }

    /// Enables or disables AMR-WB (RFC 4867).
    pub fn enable_amr_wb(self, enabled: bool) -> Result<RtcConfig, AllocError>
        ensures { IfOk result (λ config. config ≡ spec.codec_set Codec.AmrWb enabled false self) }
    {
        self.set_codec(Codec::AmrWb, enabled, false)
    }

    /// Enables or disables VP8 (RFC 7741).
    pub fn enable_vp8(self, enabled: bool) -> Result<RtcConfig, AllocError>
        ensures { IfOk result (λ config. config ≡ spec.codec_set Codec.Vp8 enabled false self) }
    {
        self.set_codec(Codec::Vp8, enabled, false)
    }

    /// Enables or disables H.264 (RFC 6184).
    pub fn enable_h264(self, enabled: bool) -> Result<RtcConfig, AllocError>
        ensures { IfOk result (λ config. config ≡ spec.codec_set Codec.H264 enabled false self) }
    {
        self.set_codec(Codec::H264, enabled, false)
    }

    /// Enables or disables H.265 (RFC 7798).
    pub fn enable_h265(self, enabled: bool) -> Result<RtcConfig, AllocError>
        ensures { IfOk result (λ config. config ≡ spec.codec_set Codec.H265 enabled false self) }
    {
        self.set_codec(Codec::H265, enabled, false)
    }

    /// Enables or disables H.266 (RFC 9328).
    pub fn enable_h266(self, enabled: bool) -> Result<RtcConfig, AllocError>
        ensures { IfOk result (λ config. config ≡ spec.codec_set Codec.H266 enabled false self) }
    {
        self.set_codec(Codec::H266, enabled, false)
    }

    /// Enables or disables VP9 (RFC 9628).
    pub fn enable_vp9(self, enabled: bool) -> Result<RtcConfig, AllocError>
        ensures { IfOk result (λ config. config ≡ spec.codec_set Codec.Vp9 enabled false self) }
    {
        self.set_codec(Codec::Vp9, enabled, false)
    }

    /// Enables or disables AV1.
    pub fn enable_av1(self, enabled: bool) -> Result<RtcConfig, AllocError>
        ensures { IfOk result (λ config. config ≡ spec.codec_set Codec.Av1 enabled false self) }
    {
        self.set_codec(Codec::Av1, enabled, false)
    }

    /// Sets how many packets back a redundant packet repeats (RFC 2198). Zeros and numbers above 10 are left out, and 1 is always there.
    pub fn set_red_distances(mut self, distances: &[u32]) -> Result<RtcConfig, AllocError>
        ensures { IfOk result (λ config. config ≡ spec.distances_set distances.now self) }
    {
        let changed = change_distances(self.alloc, &mut self.codecs, distances);
        whole(self, changed)
    }
}
