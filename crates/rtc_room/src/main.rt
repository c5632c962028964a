//! Reads a script of a message room, performs it, and prints each reply.
#![tactic(auto)]

mod asking;
mod reading;
mod replying;
mod room_script_error;
mod step_lines;
mod step_words;
mod top;

pub use asking::ask_to_run;
pub use reading::read_script;
pub use replying::write_room_report;
pub use room_script_error::RoomScriptError;
use rtc_io::{OUT_OF_MEMORY, collect_words};
pub use rtc_io::{MemSink, MemSource, Sink, Source, StdSink, StdSource};
pub use rtc_room_hub::run_room;
pub use rtc_room_laws::{RoomReply, RoomStep};
use std::process::ExitCode;
pub use top::room_main;

fn main(rt: HostRuntime) -> ExitCode {
    let Ok(words) = collect_words(&rt) else {
        return ExitCode::from(OUT_OF_MEMORY);
    };
    let mut input = StdSource::new(rt.stdin());
    let mut output = StdSink::new(rt.stdout());
    let status = room_main(rt.alloc(), words.as_slice(), &mut input, &mut output);
    ExitCode::from(status)
}
