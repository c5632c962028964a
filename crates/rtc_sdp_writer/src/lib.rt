//! The writer of session descriptions, and the law that a written text is read back.
#![tactic(auto)]

mod connection_text;
mod filled_text;
mod head_text;
mod laws;
mod layer_text;
mod line_text;
mod media_text;
mod payload_text;
mod semantic_text;
mod session_text;
mod source_text;

pub use laws::{read_lines_are_plain, written_text_reads_again, written_text_reads_back};
pub use session_text::{write, write_filled};
