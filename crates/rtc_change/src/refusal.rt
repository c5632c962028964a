//! Refusals of offers and answers.
ghost use Rattle.std.specs.Prelude.{◌≡◌};
ghost use Rattle.rtc_change.specs.declared.refusal.Refusal.TheVariants.{Alloc};

use rtc_peer_rows::Why;
use rtc_sdp_values::SdpError;
use std::alloc::{AllocError, AllocFailed};

/// Why there is no plan for an offer or an answer.
#[derive(Debug, PartialEq, Eq, Drop)]
pub enum Refusal {
    RemoteSdp(Why),
    /// The session description is inconsistent.
    Sdp(SdpError),
    /// There was too little memory.
    Alloc,
}

impl From<AllocError> for Refusal {
    ghost from_gives = { λ _ e. e ≡ Alloc };

    fn from(_error: AllocError) -> Refusal {
        Refusal::Alloc
    }
}

impl<T: Drop> From<AllocFailed<T>> for Refusal {
    ghost from_gives = { λ _ e. e ≡ Alloc };

    fn from(_error: AllocFailed<T>) -> Refusal {
        Refusal::Alloc
    }
}
