//! What an end knows of a stream.
ghost use Rattle.std.specs.Prelude.{◌≡◌, ◌<◌};
ghost use Rattle.rtc_assoc_state.specs.Streams.{is_closed_here, takes_messages, reset_row, is_at_last_generation};

use crate::close_state::CloseState;

/// What an end knows of a stream, also of one that is gone: its generation is kept.
#[derive(Clone, Copy, Debug, PartialEq, Eq)]
pub struct StreamRow {
    pub stream: u16,
    /// How many resets were completed.
    pub generation: u32,
    pub there: bool,
    pub close: CloseState,
    /// The other end's close was received.
    pub finished: bool,
    pub threshold: Option<usize>,
}

impl StreamRow {
    /// The row once the reset is complete.
    pub fn reset(&self) -> StreamRow
        requires { self.now.generation < 4294967295 }
        ensures { result ≡ reset_row self.now }
    {
        StreamRow {
            stream: self.stream,
            generation: self.generation + 1,
            there: false,
            close: CloseState::Unclosed,
            finished: false,
            threshold: None,
        }
    }

    /// Whether the generation is the last, behind which no reset is completed.
    pub fn is_at_last_generation(&self) -> bool
        ensures { result ≡ is_at_last_generation self.now }
    {
        self.generation == u32::MAX
    }

    /// Whether this end closed the stream.
    pub fn is_closed_here(&self) -> bool
        ensures { result ≡ is_closed_here self.now }
    {
        match self.close {
            CloseState::Unclosed => false,
            CloseState::Queued | CloseState::Acknowledged => true,
        }
    }

    /// Whether messages of a generation are kept: of one that this end did not close.
    pub fn takes_messages(&self, generation: u32) -> bool
        ensures { result ≡ takes_messages self.now generation }
    {
        let closed = self.is_closed_here();
        self.generation < generation || (self.generation == generation && !closed)
    }
}
