//! Runs tables of two peers of which one part fails at listed calls, and examples of how such parts number their calls.
//!
//! Each line of the input names a subject and an example of it, and is printed again behind `agrees` or `differs`.
//! `single PART SPAN` connects two peers whose left DTLS part, association or media part fails at one call, for each
//! number from 0 to 63. `pairs PART SPAN COUNT SEED` does so at two calls, for so many pairs of numbers that the seed
//! determines. So many milliseconds pass before each round. `crossed PART ROLE` crosses the offers of a polite and an
//! impolite peer, of which the left one, in this role, has a part that fails. `rooms MEMBERS BATCHES SIZE FORWARDS` forwards
//! messages in a room of so many members, so that a tool that counts instructions sees what the last forward costs. `numbers`
//! are calls of a part alone.
#![tactic(auto)]

mod checking;
mod course;
mod crossing;
mod dtls_calls;
mod forwarding;
mod growing;
mod media_calls;
mod numbers;
mod part;
mod performing;
mod ran;
mod refusals;
mod room_course;
mod room_meeting;
mod stream_calls;
mod table;
mod telling;

use rtc_examples_cases::{Examples, is_true, run};
use std::io;
use std::process::ExitCode;
use std::rt::Files;

struct Faults;

impl Examples for Faults {
    fn does_agree<R: Files + AllocGlobal>(rt: &R, subject: &str, name: &str) -> bool {
        let alloc = rt.alloc();
        match subject {
            "single" => is_true(table::does_hold_once(alloc, name)),
            "pairs" => is_true(table::does_hold_twice(alloc, name)),
            "crossed" => is_true(crossing::does_meet(alloc, name)),
            "rooms" => is_true(forwarding::does_forward(alloc, name)),
            "numbers" => is_true(numbers::does_agree(alloc, name)),
            _ => false,
        }
    }
}

fn main(rt: HostRuntime) -> io::Result<ExitCode> {
    run::<Faults, HostRuntime>(&rt)
}
