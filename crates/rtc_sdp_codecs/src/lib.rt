//! The codecs and header extensions of a peer, and what of them a media line has.
#![tactic(auto)]

mod codec;
mod codec_rows;
mod extension_rows;
mod line_extensions;
mod line_formats;

pub use codec::Codec;
pub use codec_rows::{collect_distances, make_default_codecs, set_row};
pub use extension_rows::set_extension_row;
pub use line_extensions::{extensions_of_kind, share_extensions};
pub use line_formats::{match_rows, payload_kind, rows_of_kind};
