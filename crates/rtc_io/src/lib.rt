//! Bytes in and out, with the faults of both.
#![tactic(auto)]

mod mem_sink;
mod mem_source;
mod program_input;
mod program_words;
mod reading;
mod saying;
mod sink;
mod source;
mod status;
mod std_sink;
mod std_source;
mod writing;

pub use mem_sink::MemSink;
pub use mem_source::MemSource;
pub use program_input::{read_input, refuse_input};
pub use program_words::collect_words;
pub use reading::{INPUT_LIMIT, ReadError, read_all};
pub use saying::say;
pub use sink::{Sink, WriteFailed};
pub use source::{ReadFailed, Source};
pub use status::{OUT_OF_MEMORY, REFUSED, SINK_FAILED, SOURCE_FAILED, TOO_LONG, USAGE};
pub use std_sink::StdSink;
pub use std_source::StdSource;
pub use writing::write_all;
