//! Hashes of certificates.
use rtc_examples_cases::every;
use rtc_sdp_values::Fingerprint;
use rtc_wire_text::push_hex;
use std::alloc::{AllocError, Global};

fn push_hash(alloc: Global, name: &str, hex: &mut String) -> Result<(), AllocError> {
    match Fingerprint::of_certificate(alloc, b"abc", name)? {
        Some(made) => push_hex(hex, made.bytes.as_slice()),
        None => Ok(()),
    }
}

// Whether the hash of the message "abc" is this one.
fn is_hash(alloc: Global, name: &str, expected: &str) -> bool {
    let mut hex = String::new(alloc);
    let done = push_hash(alloc, name, &mut hex);
    done.is_ok() & (hex.as_str() == expected)
}

// Whether the hashes of the message "abc" are those of FIPS 180-4, and other names have none.
fn hashes(alloc: Global) -> bool {
    let sha256 =
        "BA:78:16:BF:8F:01:CF:EA:41:41:40:DE:5D:AE:22:23:B0:03:61:A3:96:17:7A:9C:B4:10:FF:61:F2:00:15:AD";
    let sha1 = "A9:99:3E:36:47:06:81:6A:BA:3E:25:71:78:50:C2:6C:9C:D0:D8:9D";
    every(&[
        is_hash(alloc, "sha-256", sha256),
        is_hash(alloc, "sha-1", sha1),
        is_hash(alloc, "sha-512", ""),
    ])
}

/// Whether an example of session descriptions as values gives what is expected.
pub fn does_agree(alloc: Global, example: &str) -> bool {
    match example {
        "with hashes of certificates" => hashes(alloc),
        _ => false,
    }
}
