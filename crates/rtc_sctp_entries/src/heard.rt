//! What an association returns for a reading.
ghost use Rattle.std.specs.Prelude.{◌≡◌};
ghost use Rattle.rtc_parts.specs.Returned.{returned_message};
ghost use Rattle.rtc_sctp_entries.specs.Answers.{heard_of};

use rtc_parts::{AssocError, Ppi};
use rtc_wire::Bytes;

/// What was read of a stream.
#[derive(Debug, Drop)]
pub enum Heard {
    Nothing,
    Message(Ppi, Bytes),
    Refused,
    OutOfMemory,
}

impl Heard {
    /// What a result is to streams.
    pub fn of(answer: Result<Option<(Ppi, Vec<u8>)>, AssocError>) -> Heard
        ensures { result ≡ heard_of (returned_message answer) }
    {
        match answer {
            Ok(None) => Heard::Nothing,
            Ok(Some((ppi, bytes))) => Heard::Message(ppi, Bytes::new(bytes)),
            Err(AssocError::StreamExists) => Heard::Refused,
            Err(AssocError::ResetPending) => Heard::Refused,
            Err(AssocError::NoStream) => Heard::Refused,
            Err(AssocError::TooLong) => Heard::Refused,
            Err(AssocError::Closing) => Heard::Refused,
            Err(AssocError::Fault) => Heard::Refused,
            Err(AssocError::Alloc) => Heard::OutOfMemory,
        }
    }
}
