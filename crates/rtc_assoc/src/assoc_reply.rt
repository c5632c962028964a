//! What steps of two ends return.
use rtc_parts::{AssocError, AssocEvent, Ppi};
use rtc_wire::Bytes;

/// What a step returned.
#[derive(Debug, PartialEq, Eq, Drop)]
pub enum AssocReply {
    Done,
    /// Neither `Fault` nor `Alloc`.
    Refused(AssocError),
    /// A message was written. The generation is the stream's as the call began.
    Wrote {
        generation: u64,
    },
    /// The number of the packet that was taken, if there was one.
    Packet(Option<u32>),
    Event(Option<AssocEvent>),
    /// The message that was read, if there was one. The generation is the stream's as the call began.
    Message {
        generation: u64,
        message: Option<(Ppi, Bytes)>,
    },
    /// No call was made.
    NoSuch,
}
