//! A receiver of a file that gets records at wrong moments.
use rtc_examples_cases::{every, is_ok, is_refused};
use rtc_file_records::{FileError, FileReceiver};
use std::alloc::Global;

const BEGIN: &[u8] = b"\x01\x00\x04file\x00\x00\x00\x00\x00\x00\x00\x04";

const FIRST: &[u8] = b"\x02\x00\x00\x00\x00\x00\x00\x00\x00abc";

// The End, with the SHA-256 of `abcd`.
const END: &[u8] = &[
    3, 0, 0, 0, 0, 0, 0, 0, 4, 0x88, 0xd4, 0x26, 0x6f, 0xd4, 0xe6, 0x33, 0x8d, 0x13, 0xb8, 0x45,
    0xfc, 0xf2, 0x89, 0x57, 0x9d, 0x20, 0x9c, 0x89, 0x78, 0x23, 0xb9, 0x21, 0x7d, 0xa3, 0xe1, 0x61,
    0x93, 0x6f, 0x03, 0x15, 0x89,
];

// The End of a file of three bytes.
const OTHER_END: [u8; 41] = [
    3, 0, 0, 0, 0, 0, 0, 0, 3, 0, 0, 0, 0, 0, 0, 0, 0, 0, 0, 0, 0, 0, 0, 0, 0, 0, 0, 0, 0, 0, 0, 0,
    0, 0, 0, 0, 0, 0, 0, 0, 0,
];

// A receiver of `file`, of four bytes, gets the first three.
fn hold_three(receiver: &mut FileReceiver) -> bool {
    receiver.begin_session();
    let begun = is_ok(receiver.take(BEGIN));
    begun & is_ok(receiver.take(FIRST))
}

// Whether a receiver that holds three bytes refuses a message with this cause and still holds them.
fn refuses(alloc: Global, message: &[u8], cause: FileError) -> bool {
    let mut receiver = FileReceiver::new(alloc);
    let held = hold_three(&mut receiver);
    let refused = is_refused(receiver.take(message), &cause);
    every(&[
        held,
        refused,
        receiver.held() == b"abc".as_slice(),
        !receiver.is_whole(),
    ])
}

/// Whether an example of records gives what is expected.
pub fn does_agree(alloc: Global, example: &str) -> bool {
    match example {
        "piece behind a gap" => {
            let cause = FileError::Gap { held: 3, got: 5 };
            refuses(alloc, b"\x02\x00\x00\x00\x00\x00\x00\x00\x05x", cause)
        }
        "piece past the total" => {
            let cause = FileError::TooMuch { total: 4, would: 5 };
            refuses(alloc, b"\x02\x00\x00\x00\x00\x00\x00\x00\x03de", cause)
        }
        "end before the last byte" => {
            refuses(alloc, END, FileError::Short { total: 4, held: 3 })
        }
        "second begin" => refuses(alloc, BEGIN, FileError::Order),
        "end of another total" => refuses(alloc, &OTHER_END, FileError::OtherFile),
        _ => false,
    }
}
