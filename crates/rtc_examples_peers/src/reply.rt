//! What becomes of an offer.
use rtc_peer::RtcError;
use rtc_wire_drops::release;
use std::alloc::{AllocError, Global};

/// What a peer makes of an offer that it is given.
#[derive(Drop)]
pub enum Reply {
    /// The text of its answer.
    Answer(String),
    /// Why it refuses the offer, as the error prints it.
    Refusal(String),
    /// There was too little memory.
    Alloc,
}

fn refusal(alloc: Global, error: &RtcError) -> Result<String, AllocError> {
    match error {
        RtcError::Alloc => Err(AllocError),
        _ => format!(in alloc; "{error}"),
    }
}

impl Reply {
    /// The reply by what the calls of a peer returned.
    pub fn new(alloc: Global, answered: Result<String, RtcError>) -> Reply {
        match answered {
            Ok(text) => Reply::Answer(text),
            Err(error) => {
                let told = refusal(alloc, &error);
                match release(error, told) {
                    Ok(told) => Reply::Refusal(told),
                    Err(_) => Reply::Alloc,
                }
            }
        }
    }
}
