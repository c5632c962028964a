//! Copies of offers and answers: that a copy is equal to its value is a clause of `copy`.
use crate::turn::Turn;
use rtc_examples_cases::is_ok;
use rtc_lines::{SdpAnswer, SdpError, SdpOffer};
use rtc_wire::TryCopy;
use rtc_wire_drops::release;
use std::alloc::Global;

fn is_offer_copied(alloc: Global, text: &str) -> Result<bool, SdpError> {
    let offer = SdpOffer::from_sdp_string(alloc, text)?;
    let copied = is_ok(offer.copy());
    release(offer, Ok(copied))
}

// The same lines are read as an answer too.
fn is_answer_copied(alloc: Global, text: &str) -> Result<bool, SdpError> {
    let answer = SdpAnswer::from_sdp_string(alloc, text)?;
    let copied = is_ok(answer.copy());
    release(answer, Ok(copied))
}

/// Whether a description that is received as text is copied.
pub fn are_copied(alloc: Global, turns: &[Turn]) -> Result<bool, SdpError> {
    match turns {
        [turn] => {
            let offer = is_offer_copied(alloc, turn.offer.as_str())?;
            Ok(offer & is_answer_copied(alloc, turn.offer.as_str())?)
        }
        _ => Ok(false),
    }
}
