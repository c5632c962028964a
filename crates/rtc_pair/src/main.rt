//! Reads a script of steps for two peers, performs it, and prints each reply with the acting peer's lines and channels.
//!
//! Or performs a demo of rounds that a seed determines, and prints its counts.
#![tactic(auto)]

mod asking;
mod demo;
mod performing;
mod program;
mod running;
#[cfg(test)]
mod tests;
mod top;

pub use program::pair_main;
use rtc_io::{OUT_OF_MEMORY, collect_words};
pub use rtc_io::{MemSink, MemSource, Sink, Source, StdSink, StdSource};
pub use rtc_run::{Pair, PlainPair, run_pair};
pub use rtc_run_history::{Made, Op, OpAnswer, Outcome, PollEnd, Reply, Shown, Side, Step, Table};
pub use rtc_script::{Script, ScriptError, Setting, read_script};
pub use rtc_script_reports::write_report;
use std::process::ExitCode;

// Ends with a status, once what was kept is dropped.
fn end<P: Drop>(status: u8, _kept: Option<P>) -> ExitCode {
    ExitCode::from(status)
}

fn main(rt: HostRuntime) -> ExitCode {
    let Ok(words) = collect_words(&rt) else {
        return ExitCode::from(OUT_OF_MEMORY);
    };
    let mut input = StdSource::new(rt.stdin());
    let mut output = StdSink::new(rt.stdout());
    let mut last = None;
    let status = pair_main(
        rt.alloc(),
        words.as_slice(),
        &mut input,
        &mut output,
        &mut last,
    );
    end(status, last)
}
