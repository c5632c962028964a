//! The codecs of a configuration, and what settings leave of them.
use crate::config::{Config, Named, fresh};
use rtc_examples_cases::{is_list, is_true};
use rtc_sdp_values::PayloadRow;
use std::alloc::{AllocError, Global};

// The payload types of rows, in their order.
fn numbers(alloc: Global, rows: &[PayloadRow]) -> Result<Vec<u8>, AllocError> {
    let mut numbers = Vec::with_capacity(alloc, rows.len())?;
    for row in rows {
        numbers.push(row.pt.0)?;
    }
    Ok(numbers)
}

const ALL: [Named; 12] = [
    Named::Opus,
    Named::Pcmu,
    Named::Pcma,
    Named::G722,
    Named::ComfortNoise,
    Named::AmrWb,
    Named::Vp8,
    Named::H264(true),
    Named::H265,
    Named::H266,
    Named::Vp9,
    Named::Av1,
];

// Whether a configuration, with these codecs enabled or disabled in turn, has these payload types.
fn has_numbers<C: Config + Drop>(
    alloc: Global,
    config: C,
    codecs: &[Named],
    expected: &[u8],
) -> Result<bool, AllocError> {
    let mut config = config;
    for codec in codecs {
        config = config.with_codec(*codec)?;
    }
    Ok(is_list(numbers(alloc, config.rows()), expected))
}

// Whether all codecs have their payload types, in the order in which they were enabled.
fn all_enabled<C: Config + Drop>(
    alloc: Global,
    made: Result<C, AllocError>,
) -> Result<bool, AllocError> {
    let expected = [111u8, 0, 8, 9, 13, 114, 96, 102, 104, 106, 98, 45];
    has_numbers(alloc, made?.without_codecs(), &ALL, expected.as_slice())
}

// Whether opus, enabled once more, becomes the last one, and H264, disabled, is removed.
fn enabled_and_disabled<C: Config + Drop>(
    alloc: Global,
    made: Result<C, AllocError>,
) -> Result<bool, AllocError> {
    let expected = [96u8, 104, 98, 45, 111];
    has_numbers(
        alloc,
        made?,
        &[Named::Opus, Named::H264(false)],
        expected.as_slice(),
    )
}

/// Whether an example of codecs gives what is expected.
pub fn does_agree(alloc: Global, example: &str) -> bool {
    match example {
        "of all names" => is_true(all_enabled(alloc, fresh(alloc))),
        "that are enabled and disabled" => is_true(enabled_and_disabled(alloc, fresh(alloc))),
        _ => false,
    }
}
