//! Functions that spare their callers costly drops: values are filled in place, and dropped by a call.
#![tactic(auto)]

mod filling;
mod releasing;

pub use filling::{fill, fill_next, fill_some, set, whole};
pub use releasing::release;
