//! Offers and answers through signalling.
ghost use Rattle.std.specs.Prelude.{◌≡◌, IfOk};
ghost use Rattle.rtc_lines.specs.SdpReads.{ReadsAnswer, ReadsOffer};
ghost use Rattle.rtc_sdp_reader.specs.Reading.{ReadsSdp, reading};
ghost use Rattle.rtc_sdp_writer.specs.AsRead.{as_read};
ghost use Rattle.rtc_sdp_writer.specs.Plain.{IsLegible, IsPlain};
ghost use Rattle.rtc_sdp_writer.specs.SessionRows.{written_sdp};

use rtc_lines::{SdpAnswer, SdpOffer};
use rtc_sdp_reader::read;
use rtc_sdp_values::{Sdp, SdpError};
use rtc_sdp_writer::write;
use std::alloc::Global;

/// The offer that arrives if this one is sent (RFC 8829, section 5.8, in our profile).
///
/// It may differ from what was sent: a session description does not say what our profile has no line for.
pub fn deliver_offer(alloc: Global, offer: &SdpOffer) -> Result<SdpOffer, SdpError>
    ensures reading { ReadsOffer result (reading (written_sdp offer.now.0)) }
    ensures legible { IsLegible offer.now.0 → IfOk result (λ delivered. delivered.0 ≡ as_read offer.now.0) }
    ensures plain { IsPlain offer.now.0 → IfOk result (λ delivered. delivered.0 ≡ offer.now.0) }
{
    let text = offer.to_sdp_string()?;
    SdpOffer::from_sdp_string(alloc, text.as_str())
}

/// The answer that arrives if this one is sent (RFC 8829, section 5.8, in our profile).
pub fn deliver_answer(alloc: Global, answer: &SdpAnswer) -> Result<SdpAnswer, SdpError>
    ensures reading { ReadsAnswer result (reading (written_sdp answer.now.0)) }
    ensures legible { IsLegible answer.now.0 → IfOk result (λ delivered. delivered.0 ≡ as_read answer.now.0) }
    ensures plain { IsPlain answer.now.0 → IfOk result (λ delivered. delivered.0 ≡ answer.now.0) }
{
    let text = answer.to_sdp_string()?;
    SdpAnswer::from_sdp_string(alloc, text.as_str())
}

/// What arrives if a session description is sent, or the first line that refuses what was written of it.
pub fn deliver(alloc: Global, sdp: &Sdp) -> Result<Sdp, SdpError>
    ensures { ReadsSdp result (reading (written_sdp sdp.now)) }
{
    let text = write(sdp)?;
    read(alloc, text.as_str())
}
