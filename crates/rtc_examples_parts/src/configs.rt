//! Settings of a configuration.
use crate::config::{Config, fresh};
use rtc_examples_cases::{every, is_ok, is_true};
use rtc_sdp_values::Extension;
use rtc_wire::TryCopy;
use std::alloc::{AllocError, Global};

// Whether the audio level is the last of seven extensions, by the number 4.
fn end_with_level(rows: &[(u8, Extension)]) -> bool {
    (rows.len() == 7) & (rows.last() == Some(&(4, Extension::AudioLevel)))
}

// Whether a configuration has what is set, and is copied with it. That the copy is equal is a clause of `copy`.
fn keeps_settings<C: Config + TryCopy + Drop>(
    made: Result<C, AllocError>,
) -> Result<bool, AllocError> {
    let config = made?.with_settings(&[10, 11, 0, 3, 3])?;
    Ok(every(&[
        config.datagram_sizes() == (900, 1400),
        config.distances() == [1u32, 3, 10].as_slice(),
        end_with_level(config.extension_rows()),
        is_ok(config.copy()),
    ]))
}

/// Whether an example of configurations gives what is expected.
pub fn does_agree(alloc: Global, example: &str) -> bool {
    match example {
        "keep what is set" => is_true(keeps_settings(fresh(alloc))),
        _ => false,
    }
}
