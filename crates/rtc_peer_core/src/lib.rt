//! What a peer is made of, and what its calls do, as relations.
#![tactic(auto)]

mod drawing;
mod formats;
mod line_media;
mod peer;
mod phase;
mod rtc_error;
mod sdp_head;
mod sending;
mod staged;
mod told_row;
mod undo;

pub use drawing::count_lines;
pub use formats::Formats;
pub use line_media::LineMedia;
pub use peer::Peer;
pub use phase::Phase;
pub use rtc_error::RtcError;
pub use sdp_head::SdpHead;
pub use sending::Sending;
pub use staged::Staged;
pub use told_row::ToldRow;
pub use undo::Undo;
