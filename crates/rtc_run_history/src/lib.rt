//! Steps of two peers, the replies to them, and what a run of them promises.
#![tactic(auto)]

mod kept;
mod made;
mod op;
mod op_answer;
mod outcome;
mod poll_end;
mod reply;
mod sent_packet;
mod shown;
mod side;
mod step;
mod table;

pub use kept::Kept;
pub use made::Made;
pub use op::Op;
pub use op_answer::OpAnswer;
pub use outcome::Outcome;
pub use poll_end::PollEnd;
pub use reply::{Reply, do_answers_lack};
pub use sent_packet::SentPacket;
pub use shown::Shown;
pub use side::Side;
pub use step::Step;
pub use table::Table;
