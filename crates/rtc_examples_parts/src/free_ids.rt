//! Ids of streams that are free.
use rtc_channels::FreeIds;
use rtc_examples_cases::every;

// Whether the least id of a server follows what is taken.
fn follow_what_is_taken() -> bool {
    let mut ids = FreeIds::new(false);
    let first = ids.least() == Some(1);
    let taken = ids.take(1) & ids.take(5);
    let next = ids.least() == Some(3);
    let put = ids.put(1);
    let least = ids.least() == Some(1);
    every(&[first, taken, next, put, least, !ids.take(2)])
}

/// Whether an example of free ids gives what is expected.
pub fn does_agree(example: &str) -> bool {
    match example {
        "that are free are the least of a server" => follow_what_is_taken(),
        _ => false,
    }
}
