//! Results of a gateway, as values.
ghost use Rattle.std.specs.Prelude.{◌≡◌};
ghost use Rattle.rtc_gate_calls.specs.Replies.{ran_out};

use crate::GateError;
use rtc_wire::Bytes;

/// What a call of a gateway returns.
#[derive(Debug, PartialEq, Eq, Drop)]
pub enum GateReply {
    /// The number that a connection got.
    Joined(u32),
    /// A connection left.
    Left,
    /// How many frames became whole.
    Fed(u32),
    /// The frame that waited longest, if one waited.
    Took(Option<Bytes>),
    /// Why the call was refused.
    Refused(GateError),
}

impl GateReply {
    /// Whether the call found too little memory.
    pub fn is_out_of_memory(&self) -> bool
        ensures { result ≡ ran_out self.now }
    {
        match self {
            GateReply::Refused(error) => match error {
                GateError::Alloc => true,
                GateError::BadName
                | GateError::NameTaken
                | GateError::Full
                | GateError::NoSuch
                | GateError::BadFrame { at: _ } => false,
            },
            GateReply::Joined(_) | GateReply::Left | GateReply::Fed(_) | GateReply::Took(_) =>
                false,
        }
    }
}
