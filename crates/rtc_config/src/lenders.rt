//! Codecs and header extensions, lent for changes.
ghost use Rattle.std.specs.Prelude.{◌≡◌};
ghost use Rattle.std.specs.Borrow.{Lends, sem};

use crate::RtcConfig;
use rtc_sdp_values::{CodecConfig, ExtensionMap};

impl RtcConfig {
    ghost use Rattle.rtc_sdp_values.specs.contracts.codec_config.CodecConfig.{the_row as codecs_row};
    ghost use Rattle.rtc_sdp_values.specs.contracts.extension_map.ExtensionMap.{the_row as extensions_row};
    ghost use Rattle.rtc_config.specs.contracts.rtc_config.RtcConfig.{the_row};

    /// The codecs, to be changed in place.
    pub fn codec_config(&mut self) -> &mut CodecConfig
        ensures* leaves { sem 𝓛 (Lends the_row codecs_row self.entry result (λ codecs. record self.old { codecs = codecs })) }
        ensures value { result.now ≡ self.old.codecs }
    {
        &mut self.codecs
    }

    /// The header extensions, to be changed in place.
    pub fn extension_map(&mut self) -> &mut ExtensionMap
        ensures* leaves { sem 𝓛 (Lends the_row extensions_row self.entry result (λ map. record self.old { extensions = map })) }
        ensures value { result.now ≡ self.old.extensions }
    {
        &mut self.extensions
    }
}
