//! The records of a file, each a message of a data channel: what gives them, and what takes them and keeps what was received.
#![tactic(auto)]

mod announced;
mod file_error;
mod file_receiver;
mod file_record;
mod file_sender;
mod laws;
mod record_view;

pub use announced::Announced;
pub use file_error::FileError;
pub use file_receiver::FileReceiver;
pub use file_record::{FileRecord, NAME_LIMIT, PIECE_LIMIT};
pub use file_sender::FileSender;
pub use laws::{records_read_back, whole_where_an_end_was_taken};
