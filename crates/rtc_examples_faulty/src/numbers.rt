//! Examples of how the calls of a part are numbered and counted.
use crate::{dtls_calls, media_calls, stream_calls};
use std::alloc::{AllocError, Global};

/// Whether a part fails at those calls that have listed numbers, or counts its calls.
pub fn does_agree(alloc: Global, example: &str) -> Result<bool, AllocError> {
    match example {
        "of dtls calls leave out data that waits" => dtls_calls::fails_at_listed(alloc),
        "of dtls calls are counted by kind" => dtls_calls::counts_calls(alloc),
        "of streams leave out readings of nothing" => stream_calls::fails_at_listed(alloc),
        "of media polls are used by faults alone" => media_calls::fails_at_listed(alloc),
        _ => Ok(false),
    }
}
