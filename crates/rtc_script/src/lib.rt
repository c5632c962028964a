//! Scripts of two peers: settings, a line for each step, and the words that lines consist of.
#![tactic(auto)]

mod acts;
mod channel_parts;
mod cutting;
mod directions;
mod foreign;
mod kinds;
mod labels;
mod lines;
mod messages;
mod numbers;
mod ops;
mod reading;
mod script;
mod script_error;
mod setting;
mod settings;
mod side_settings;
mod sides;
mod steps;
mod words;

pub use channel_parts::{read_config, read_label_word};
pub use cutting::{cut_lines, cut_parts, cut_words};
pub use directions::read_direction;
pub use kinds::read_kind;
pub use labels::read_bytes;
pub use lines::{read_step, read_step_words};
pub use numbers::{read_long, read_one, read_two, read_two_long, read_u32, read_u64};
pub use reading::read_script;
pub use script::Script;
pub use script_error::ScriptError;
pub use setting::Setting;
pub use side_settings::SideSettings;
pub use sides::read_side;
pub use words::is_word;
