//! The configuration of a peer, as examples ask it.
use crate::config::{Config, Named};
use rtc_config::RtcConfig;
use rtc_sdp_values::{Extension, PayloadRow};
use std::alloc::AllocError;

impl Config for RtcConfig {
    fn without_codecs(self) -> RtcConfig {
        self.clear_codecs()
    }

    fn with_codec(self, codec: Named) -> Result<RtcConfig, AllocError> {
        match codec {
            Named::Opus => self.enable_opus(true, true),
            Named::Pcmu => self.enable_pcmu(true, true),
            Named::Pcma => self.enable_pcma(true, true),
            Named::G722 => self.enable_g722(true, true),
            Named::ComfortNoise => self.enable_comfort_noise(true),
            Named::AmrWb => self.enable_amr_wb(true),
            Named::Vp8 => self.enable_vp8(true),
            Named::H264(enabled) => self.enable_h264(enabled),
            Named::H265 => self.enable_h265(true),
            Named::H266 => self.enable_h266(true),
            Named::Vp9 => self.enable_vp9(true),
            Named::Av1 => self.enable_av1(true),
        }
    }

    fn with_settings(self, distances: &[u32]) -> Result<RtcConfig, AllocError> {
        let config = self.set_mtu((900, 1400));
        let config = config.set_red_distances(distances)?;
        config.set_extension(4, Extension::AudioLevel)
    }

    fn datagram_sizes(&self) -> (usize, usize) {
        (self.mtu(), self.mtu_warn())
    }

    fn rows(&self) -> &[PayloadRow] {
        self.codecs().rows.as_slice()
    }

    fn distances(&self) -> &[u32] {
        self.codecs().red_distances.as_slice()
    }

    fn extension_rows(&self) -> &[(u8, Extension)] {
        self.extensions().rows.as_slice()
    }
}
