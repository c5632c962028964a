//! Answers.
ghost use Rattle.std.specs.Prelude.{◌≡◌, IfOk, Ok, string_bytes};
ghost use Rattle.rtc_lines.specs.OfferedFormats.{answer_with_offered};
ghost use Rattle.rtc_lines.specs.SdpReads.{ReadsAnswer};
ghost use Rattle.rtc_sdp_reader.specs.Reading.{reading};
ghost use Rattle.rtc_sdp_values.specs.Sdp.{inconsistency, refusal};
ghost use Rattle.rtc_sdp_writer.specs.AsRead.{as_read};
ghost use Rattle.rtc_sdp_writer.specs.Placeholders.{filled_sdp};
ghost use Rattle.rtc_sdp_writer.specs.Plain.{IsLegible, IsPlain};
ghost use Rattle.rtc_sdp_writer.specs.SessionRows.{written_sdp};

use crate::SdpOffer;
use crate::offered_formats::with_offered_formats as copy_with_offered;
use crate::sdp_text::{filled_text, sdp_text};
use rtc_sdp_reader::read;
use rtc_sdp_values::{Sdp, SdpError};
use rtc_wire::TryCopy;
use std::alloc::{AllocError, Global};

/// A session description that is an answer (RFC 3264, section 4).
#[derive(Debug, PartialEq, Eq, Drop)]
pub struct SdpAnswer(pub Sdp);

impl SdpAnswer {
    /// The answer in a text (RFC 8829, section 5.8, in our profile), or the number of the first refused line.
    pub fn from_sdp_string(alloc: Global, text: &str) -> Result<SdpAnswer, SdpError>
        ensures { ReadsAnswer result (reading text.now) }
    {
        let sdp = read(alloc, text)?;
        Ok(SdpAnswer(sdp))
    }

    /// The answer as text. Every answer has one; that of a legible one reads as it, with the SSRCs that its lines give.
    pub fn to_sdp_string(&self) -> Result<String, AllocError>
        ensures text { IfOk result (λ text. string_bytes text ≡ written_sdp self.now.0) }
        ensures read_again { IsLegible self.now.0 → IfOk result (λ text. reading (string_bytes text) ≡ Ok (as_read self.now.0)) }
        ensures read_back { IsPlain self.now.0 → IfOk result (λ text. reading (string_bytes text) ≡ Ok self.now.0) }
    {
        sdp_text(&self.0)
    }

    /// The answer as text in which each m-line has a format, as RFC 8866, section 5.14, wants it: a line with port 0 and no
    /// payload types has the format 0. Browsers refuse the text of `to_sdp_string` if it has such a line.
    pub fn to_sdp_string_with_formats(&self) -> Result<String, AllocError>
        ensures text { IfOk result (λ text. string_bytes text ≡ filled_sdp self.now.0) }
        ensures read_again { IsLegible self.now.0 → IfOk result (λ text. reading (string_bytes text) ≡ Ok (as_read self.now.0)) }
        ensures read_back { IsPlain self.now.0 → IfOk result (λ text. reading (string_bytes text) ≡ Ok self.now.0) }
    {
        filled_text(&self.0)
    }

    /// The answer in which each line with port 0 and no payload types has those of the line at its place in the offer that it
    /// answers. Their meaning is ignored (RFC 3264, section 6), but some stacks look for a codec on each line.
    pub fn with_offered_formats(&self, offer: &SdpOffer) -> Result<SdpAnswer, AllocError>
        ensures { IfOk result (λ answer. answer.0 ≡ answer_with_offered self.now.0 offer.now.0) }
    {
        let sdp = copy_with_offered(&self.0, &offer.0)?;
        Ok(SdpAnswer(sdp))
    }

    /// Whether the mids and the BUNDLE group of the answer fit together (RFC 8843, section 7.1). If there is no memory
    /// for sets of mids, it takes time in the square of the lines.
    pub fn assert_consistency(&self) -> Result<(), SdpError>
        ensures { result ≡ refusal (inconsistency self.now.0) }
    {
        self.0.assert_consistency()
    }
}

impl TryCopy for SdpAnswer {
    fn copy(&self) -> Result<SdpAnswer, AllocError> {
        let sdp = self.0.copy()?;
        Ok(SdpAnswer(sdp))
    }
}
