//! Results of operations.
ghost use Rattle.std.specs.Prelude.{◌≡◌};

use rtc_sdp_values::{IceCreds, Mid};
use rtc_wire::ChannelId;

/// The result of an operation.
#[derive(Debug, PartialEq, Eq, Drop)]
pub enum OpAnswer {
    /// The mid of the line that was staged.
    Mid(Mid),
    /// Whether the line changed, and the change was staged. A stopped line is unchanged, and so is one that has the direction.
    Changed(bool),
    /// No media line has the place.
    NoLine,
    /// The number of the channel that was staged.
    Channel(ChannelId),
    /// No channel is made of the config.
    BadChannel,
    /// The credentials of the restart that was staged.
    Creds(IceCreds),
    /// There was too little memory: nothing changed, and no further op is performed.
    Alloc,
}

impl OpAnswer {
    ghost use Rattle.rtc_run_history.specs.Memory.{answer_lacks};

    /// Whether memory ran out.
    pub fn is_out_of_memory(&self) -> bool
        ensures { result ≡ answer_lacks self.now }
    {
        match self {
            OpAnswer::Mid(_) => false,
            OpAnswer::Changed(_) => false,
            OpAnswer::NoLine => false,
            OpAnswer::Channel(_) => false,
            OpAnswer::BadChannel => false,
            OpAnswer::Creds(_) => false,
            OpAnswer::Alloc => true,
        }
    }
}
