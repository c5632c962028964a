//! A session description, read and written again.
ghost use Rattle.std.specs.Prelude.{◌≡◌, Ok, Err, MatchResult, string_bytes};
ghost use Rattle.rtc_sdp_reader.specs.Reading.{reading};
ghost use Rattle.rtc_sdp_text.specs.Repair.{bytes_reading};
ghost use Rattle.rtc_sdp_text.specs.Rewrite.{Rewrites};
ghost use Rattle.rtc_sdp_text.specs.declared.text_error.TextError.TheVariants.{Alloc};

use crate::repairing::{repair, utf8_of};
use crate::{SdpKind, TextError};
use rtc_lines::{SdpAnswer, SdpOffer};
use rtc_sdp_values::SdpError;
use rtc_wire::Text;
use rtc_wire_drops::release;
use std::alloc::{AllocError, Global};

// The text, or that there is no memory for it.
fn or_no_memory(text: Result<String, AllocError>) -> Result<Text, TextError>
    ensures { MatchResult text (λ text. result ≡ Ok (string_bytes text)) (λ _. result ≡ Err Alloc) }
{
    match text {
        Ok(text) => Ok(Text::new(text)),
        Err(_) => Err(TextError::Alloc),
    }
}

fn rewrite_offer(alloc: Global, text: &str) -> Result<Text, TextError>
    ensures { Rewrites result (reading text.now) }
{
    match SdpOffer::from_sdp_string(alloc, text) {
        Ok(offer) => {
            let text = offer.to_sdp_string();
            release(offer, or_no_memory(text))
        }
        Err(SdpError::Parse(line)) => Err(TextError::Line(line)),
        Err(SdpError::Inconsistent(_)) => unreachable!(),
        Err(SdpError::Alloc) => Err(TextError::Alloc),
    }
}

fn rewrite_answer(alloc: Global, text: &str) -> Result<Text, TextError>
    ensures { Rewrites result (reading text.now) }
{
    match SdpAnswer::from_sdp_string(alloc, text) {
        Ok(answer) => {
            let text = answer.to_sdp_string();
            release(answer, or_no_memory(text))
        }
        Err(SdpError::Parse(line)) => Err(TextError::Line(line)),
        Err(SdpError::Inconsistent(_)) => unreachable!(),
        Err(SdpError::Alloc) => Err(TextError::Alloc),
    }
}

fn rewrite_text(alloc: Global, kind: SdpKind, text: &str) -> Result<Text, TextError>
    ensures { Rewrites result (reading text.now) }
{
    match kind {
        SdpKind::Offer => rewrite_offer(alloc, text),
        SdpKind::Answer => rewrite_answer(alloc, text),
    }
}

/// The session description that bytes are read as, written again, or the line that refuses them.
pub fn rewrite(alloc: Global, kind: SdpKind, bytes: &[u8]) -> Result<Text, TextError>
    ensures { Rewrites result (bytes_reading bytes.now) }
{
    match utf8_of(bytes) {
        Some(text) => rewrite_text(alloc, kind, text),
        None => {
            let text = repair(alloc, bytes)?;
            rewrite_text(alloc, kind, text.as_str())
        }
    }
}
