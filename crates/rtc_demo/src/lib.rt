//! A demo of many rounds between two peers: its steps, which a seed determines, and what is counted over the replies to them.
#![tactic(auto)]

mod asked;
mod counting;
mod demo_counts;
mod drawn;
mod last_rows;
mod ops;
mod rounds;
mod table_counts;
mod telling;

pub use asked::read_demo;
pub use counting::count_demo;
pub use demo_counts::DemoCounts;
pub use rounds::demo_steps;
pub use telling::write_counts;
