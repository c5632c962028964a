//! Reads a session description, and writes it as the engine reads it, or what becomes of each of its lines.
#![tactic(auto)]

mod answering;
mod asking;
mod cause;
mod explaining;
mod explanation;
mod fate;
mod fates;
mod known_name;
mod repairing;
mod rewriting;
mod sdp_kind;
mod text_error;
mod top;
mod walk;

pub use asking::{Asked, asked_for};
pub use cause::Cause;
pub use explaining::explain;
pub use explanation::Explanation;
pub use fate::Fate;
pub use repairing::repair;
pub use rewriting::rewrite;
use rtc_io::{OUT_OF_MEMORY, StdSink, StdSource, collect_words};
pub use sdp_kind::SdpKind;
use std::process::ExitCode;
pub use text_error::TextError;
pub use top::text_main;
pub use walk::Walk;

fn main(rt: HostRuntime) -> ExitCode {
    let Ok(words) = collect_words(&rt) else {
        return ExitCode::from(OUT_OF_MEMORY);
    };
    let mut input = StdSource::new(rt.stdin());
    let mut output = StdSink::new(rt.stdout());
    let status = text_main(rt.alloc(), words.as_slice(), &mut input, &mut output);
    ExitCode::from(status)
}
