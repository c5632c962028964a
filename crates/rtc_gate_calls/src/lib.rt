//! A signalling gateway: passes frames of offers, answers and candidates on between connections that have names.
#![tactic(auto)]

mod acting;
mod connection;
mod cutting;
mod delivering;
mod describing;
mod extent;
mod feeding;
mod gate;
mod gate_call;
mod gate_error;
mod gate_reply;
mod laws;
mod name;
mod performing;
mod places;
mod posting;
mod running;
mod signal_frame;
mod signal_kind;
mod sorting;
mod stream_front;

pub use cutting::frames_wherever_cut;
pub use extent::{FrameExtent, frame_extent};
pub use gate::Gate;
pub use gate_call::GateCall;
pub use gate_error::GateError;
pub use gate_reply::GateReply;
pub use laws::{due_is_delivered, few_calls_are_possible, same_wherever_cut};
pub use name::name_in;
pub use performing::{can_perform, perform};
pub use running::run_calls;
pub use signal_frame::{SignalFrame, frame_in, write_frame};
pub use signal_kind::SignalKind;
pub use stream_front::{StreamFront, read_front};
