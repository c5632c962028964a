//! What programs of stored examples share: they read the lines that name examples, make calls, and compare what these return.
#![tactic(auto)]

mod answers;
mod comparing;
mod examples;
mod running;

pub use answers::{every, gives, is_ok, is_refused, is_true};
pub use comparing::{has_length, is_copied, is_list, is_text, prints, shows};
pub use examples::Examples;
pub use running::run;
