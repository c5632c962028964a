//! The INIT chunks of both ends of an association, as session descriptions carry them (draft-hancke-tsvwg-snap).
use rtc_examples_cases::{every, is_list, is_ok, is_refused, is_text, prints};
use rtc_plain::CountIds;
use rtc_sctp::{ProtoError, SctpError, SctpInitData};
use std::alloc::Global;

// The chunk of the other end: its numbers are 11 and 12.
const OTHER_TEXT: &str = "AQAAFAAAAAsAEAAA/////wAAAAw=";

fn is_told<E: Drop>(told: Result<Option<String>, E>, text: &str) -> bool {
    match told {
        Ok(Some(told)) => told.as_str() == text,
        Ok(None) => false,
        Err(_) => false,
    }
}

// Whether the chunk of an end is drawn once, with its tag and first number (RFC 9260, section 3.3.2), and is carried as base64.
fn is_drawn(halves: &mut SctpInitData) -> bool {
    let mut ids = CountIds::starting(7);
    let bytes = [
        1u8, 0, 0, 20, 0, 0, 0, 7, 0, 16, 0, 0, 255, 255, 255, 255, 0, 0, 0, 8,
    ];
    let drawn = is_list(halves.local_init_chunk(&mut ids), bytes.as_slice());
    drawn
        & is_text(
            halves.local_init_string(&mut ids),
            "AQAAFAAAAAcAEAAA/////wAAAAg=",
        )
}

// Whether of the other end a text is taken that is base64 with its padding, and no bit left over.
fn is_taken(halves: &mut SctpInitData) -> bool {
    let unpadded = is_refused(
        halves.set_remote_init_string("Zm9vYg"),
        &SctpError::InvalidSnap,
    );
    let other = is_refused(
        halves.set_remote_init_string("!!!"),
        &SctpError::InvalidSnap,
    );
    let over = is_refused(
        halves.set_remote_init_string("Zm9vYh=="),
        &SctpError::InvalidSnap,
    );
    let none = halves.has_remote_init_chunk();
    let taken = is_ok(halves.set_remote_init_string(OTHER_TEXT));
    every(&[
        unpadded,
        other,
        over,
        !none,
        taken,
        halves.has_remote_init_chunk(),
        is_told(halves.remote_init_string(), OTHER_TEXT),
    ])
}

/// Whether an example of chunks gives what is expected.
pub fn does_agree(alloc: Global, example: &str) -> bool {
    match example {
        "are drawn once and told as text" => {
            let mut halves = SctpInitData::new(alloc);
            is_drawn(&mut halves) & is_taken(&mut halves)
        }
        "of one end are too few" => {
            let text = "SNAP requires both local and remote SCTP INIT chunks";
            prints(alloc, &ProtoError::SnapHalf, text)
        }
        _ => false,
    }
}
