//! Laws of rejected lines, of offers and of answers.
#![tactic(auto)]

mod offered_formats;
mod rejected_lines;

pub use offered_formats::{
    offered_formats_are_ignored, offered_formats_are_read_again, offered_formats_are_read_back,
};
pub use rejected_lines::{left_lines_have_codecs, rejected_lines_are_read_as_rejected};
