//! Received messages.
ghost use Rattle.std.specs.Prelude.{◌≡◌};
ghost use Rattle.rtc_assoc_state.specs.Inbox.{is_message_of};

use rtc_wire::Bytes;

/// A whole message of a generation of a stream.
#[derive(Debug, Drop)]
pub struct Message {
    pub stream: u16,
    pub generation: u32,
    /// The payload protocol identifier.
    pub identifier: u32,
    pub bytes: Bytes,
}

impl Message {
    pub fn is_of(&self, stream: u16, generation: u32) -> bool
        ensures { result ≡ is_message_of stream generation self.now }
    {
        self.stream == stream && self.generation == generation
    }
}
