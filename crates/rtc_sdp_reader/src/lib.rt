//! The reader of session descriptions: from what the lines say to the value.
#![tactic(auto)]

mod answers;
mod laws;
mod layer_list;
mod line_value;
mod link;
mod media_laws;
mod part;
mod payloads;
mod place;
mod reader;
mod session_value;
mod source_list;
mod stage;
mod taking;

pub use answers::read;
pub use laws::first_refused_line_is_told;
pub use layer_list::simulcast_value;
pub use media_laws::{layers_read_back, payload_rows_read_back, sources_read_back};
pub use part::Part;
pub use payloads::payload_rows;
pub use place::Place;
pub use reader::Reader;
pub use source_list::sources;
pub use stage::Stage;
