//! What the streams of an association refuse with, the chunks that start it by session descriptions
//! (draft-hancke-tsvwg-snap), and sets of stream ids.
#![tactic(auto)]

mod init_chunk;
mod proto_error;
mod sctp_error;
mod sctp_init_data;
mod snap_halves;
mod stream_set;
pub mod words;

pub use proto_error::ProtoError;
pub use sctp_error::SctpError;
pub use sctp_init_data::SctpInitData;
pub use snap_halves::SnapHalves;
pub use stream_set::StreamSet;
