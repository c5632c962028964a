//! What one line of a session description says by itself, and the line that says it.
#![tactic(auto)]

mod attribute;
mod attribute_form;
mod connection_form;
mod group_form;
mod item;
mod item_form;
mod level;
mod media_attribute_form;
mod media_form;
mod media_head;
mod strict;

pub use attribute::Attribute;
pub use item::Item;
pub use item_form::item_of;
pub use level::Level;
pub use media_head::MediaHead;
pub use strict::Strict;
