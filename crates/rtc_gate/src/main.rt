//! Reads a script of calls of a signalling gateway, performs it, and prints what each call returns.
#![tactic(auto)]

mod asking;
mod call_lines;
mod cutting;
mod hexadecimal;
mod naming;
mod numbers;
mod reading;
mod replying;
mod script_error;
mod script_lines;
mod top;

pub use asking::ask_to_run;
pub use reading::read_script;
pub use replying::write_replies;
pub use rtc_gate_calls::{Gate, GateCall, GateError, GateReply, run_calls};
use rtc_io::{OUT_OF_MEMORY, collect_words};
pub use rtc_io::{MemSink, MemSource, Sink, Source, StdSink, StdSource};
pub use script_error::ScriptError;
use std::process::ExitCode;
pub use top::gate_main;

fn main(rt: HostRuntime) -> ExitCode {
    let Ok(words) = collect_words(&rt) else {
        return ExitCode::from(OUT_OF_MEMORY);
    };
    let mut input = StdSource::new(rt.stdin());
    let mut output = StdSink::new(rt.stdout());
    let status = gate_main(rt.alloc(), words.as_slice(), &mut input, &mut output);
    ExitCode::from(status)
}
