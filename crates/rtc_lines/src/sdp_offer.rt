//! Offers.
ghost use Rattle.std.specs.Prelude.{◌≡◌, IfOk, Ok, string_bytes};
ghost use Rattle.rtc_lines.specs.Rejecting.{mids_without_codec, offer_rejecting, sdp_of_rejecting};
ghost use Rattle.rtc_lines.specs.SdpReads.{ReadsOffer};
ghost use Rattle.rtc_sdp_reader.specs.Reading.{reading};
ghost use Rattle.rtc_sdp_values.specs.Sdp.{inconsistency, refusal};
ghost use Rattle.rtc_sdp_writer.specs.AsRead.{as_read};
ghost use Rattle.rtc_sdp_writer.specs.Placeholders.{filled_sdp};
ghost use Rattle.rtc_sdp_writer.specs.Plain.{IsLegible, IsPlain};
ghost use Rattle.rtc_sdp_writer.specs.SessionRows.{written_sdp};

use crate::rejecting::{mids_without_codec as find_mids, reject_lines};
use crate::sdp_text::{filled_text, sdp_text};
use rtc_sdp_reader::read;
use rtc_sdp_values::{CodecConfig, Mid, Sdp, SdpError};
use rtc_wire::TryCopy;
use std::alloc::{AllocError, Global};

/// A session description that is an offer (RFC 3264, section 4).
#[derive(Debug, PartialEq, Eq, Drop)]
pub struct SdpOffer(pub Sdp);

impl SdpOffer {
    /// The offer that a text says (RFC 8829, section 5.8, in our profile), or the number of the first line that refuses it.
    pub fn from_sdp_string(alloc: Global, text: &str) -> Result<SdpOffer, SdpError>
        ensures { ReadsOffer result (reading text.now) }
    {
        let sdp = read(alloc, text)?;
        Ok(SdpOffer(sdp))
    }

    /// The offer as text. Every offer has one; that of a legible one reads as it, with the SSRCs that its lines give.
    pub fn to_sdp_string(&self) -> Result<String, AllocError>
        ensures text { IfOk result (λ text. string_bytes text ≡ written_sdp self.now.0) }
        ensures read_again { IsLegible self.now.0 → IfOk result (λ text. reading (string_bytes text) ≡ Ok (as_read self.now.0)) }
        ensures read_back { IsPlain self.now.0 → IfOk result (λ text. reading (string_bytes text) ≡ Ok self.now.0) }
    {
        sdp_text(&self.0)
    }

    /// The offer as text in which each m-line has a format, as RFC 8866, section 5.14, wants it: a line with port 0 and no
    /// payload types has the format 0. Browsers refuse the text of `to_sdp_string` if it has such a line.
    pub fn to_sdp_string_with_formats(&self) -> Result<String, AllocError>
        ensures text { IfOk result (λ text. string_bytes text ≡ filled_sdp self.now.0) }
        ensures read_again { IsLegible self.now.0 → IfOk result (λ text. reading (string_bytes text) ≡ Ok (as_read self.now.0)) }
        ensures read_back { IsPlain self.now.0 → IfOk result (λ text. reading (string_bytes text) ≡ Ok self.now.0) }
    {
        filled_text(&self.0)
    }

    /// The mids of the live media lines that share no codec with a configuration: those with a port, and bundle-only ones
    /// (RFC 8843, section 6). Its answer would leave them without a format, which other readers refuse: see `rejecting`.
    pub fn lines_without_codec(
        &self,
        alloc: Global,
        codecs: &CodecConfig,
    ) -> Result<Vec<Mid>, AllocError>
        ensures { IfOk result (λ mids. mids.items ≡ mids_without_codec codecs.now.rows self.now.0.groups self.now.0.lines) }
    {
        find_mids(
            alloc,
            codecs.rows.as_slice(),
            self.0.groups.as_slice(),
            self.0.lines.as_slice(),
        )
    }

    /// The offer with the lines of these mids rejected: they have port 0 and are in no group (RFC 3264, section 6). None
    /// if no live line would be left.
    pub fn rejecting(&self, alloc: Global, mids: &[Mid]) -> Result<Option<SdpOffer>, AllocError>
        ensures { IfOk result (λ offer. sdp_of_rejecting offer ≡ offer_rejecting mids.now self.now.0) }
    {
        match reject_lines(alloc, &self.0, mids)? {
            Some(sdp) => Ok(Some(SdpOffer(sdp))),
            None => Ok(None),
        }
    }

    /// Whether the mids and the BUNDLE group of the offer fit together (RFC 8843, section 7.1). If there is no memory
    /// for sets of mids, it takes time in the square of the lines.
    pub fn assert_consistency(&self) -> Result<(), SdpError>
        ensures { result ≡ refusal (inconsistency self.now.0) }
    {
        self.0.assert_consistency()
    }
}

impl TryCopy for SdpOffer {
    fn copy(&self) -> Result<SdpOffer, AllocError> {
        let sdp = self.0.copy()?;
        Ok(SdpOffer(sdp))
    }
}
