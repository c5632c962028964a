//! Sends a file in pieces, over sessions that break off, and writes what was received.
#![tactic(auto)]

mod asking;
mod sessions;
mod top;

pub use asking::{SESSION_LIMIT, session_sizes};
use rtc_io::{StdSink, StdSource};
pub use sessions::send_file;
use std::io::ErrorKind;
use std::process::ExitCode;
use std::{env, io};
pub use top::{OUT_OF_MEMORY, file_main};

// The words behind the program's name. Words that are not UTF-8 ask for nothing.
fn collect_words(rt: &HostRuntime) -> io::Result<Vec<String>> {
    let mut words = Vec::new(rt.alloc());
    for word in env::args(rt)?.skip(1) {
        words.push(word)?;
    }
    Ok(words)
}

fn main(rt: HostRuntime) -> ExitCode {
    let alloc = rt.alloc();
    let words = match collect_words(&rt) {
        Ok(words) => words,
        Err(error) if error.kind() == ErrorKind::OutOfMemory => {
            return ExitCode::from(OUT_OF_MEMORY);
        }
        Err(_) => Vec::new(alloc),
    };
    let mut input = StdSource::new(rt.stdin());
    let mut output = StdSink::new(rt.stdout());
    let status = file_main(alloc, words.as_slice(), &mut input, &mut output);
    ExitCode::from(status)
}
