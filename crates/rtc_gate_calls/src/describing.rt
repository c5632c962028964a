//! Whether a text is a session description.
ghost use Rattle.std.specs.Prelude.{◌≡◌, IfOk};
ghost use Rattle.rtc_gate_calls.specs.Grammar.{is_description};

use rtc_lines::{SdpAnswer, SdpError, SdpOffer};
use std::alloc::{AllocError, Global};

/// Whether a text is that of an offer (RFC 3264, section 4) in our profile.
#[tactic(auto, unfolding(crate::specs::Grammar::is_description))]
pub fn is_offer(alloc: Global, text: &str) -> Result<bool, AllocError>
    ensures { IfOk result (λ read. read ≡ is_description text.now) }
{
    match SdpOffer::from_sdp_string(alloc, text) {
        Ok(_) => Ok(true),
        Err(SdpError::Parse(_)) => Ok(false),
        Err(SdpError::Inconsistent(_)) => unreachable!(),
        Err(SdpError::Alloc) => Err(AllocError),
    }
}

/// Whether a text is that of an answer in our profile.
#[tactic(auto, unfolding(crate::specs::Grammar::is_description))]
pub fn is_answer(alloc: Global, text: &str) -> Result<bool, AllocError>
    ensures { IfOk result (λ read. read ≡ is_description text.now) }
{
    match SdpAnswer::from_sdp_string(alloc, text) {
        Ok(_) => Ok(true),
        Err(SdpError::Parse(_)) => Ok(false),
        Err(SdpError::Inconsistent(_)) => unreachable!(),
        Err(SdpError::Alloc) => Err(AllocError),
    }
}
