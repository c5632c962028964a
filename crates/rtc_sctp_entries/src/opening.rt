//! What an association returns for an opening.
ghost use Rattle.std.specs.Prelude.{◌≡◌};
ghost use Rattle.rtc_sctp_entries.specs.Answers.{opening_of};

use rtc_parts::AssocError;

/// Whether an association opened a stream.
#[derive(Clone, Copy, Debug, PartialEq, Eq)]
pub enum Opening {
    Done,
    /// The stream is there.
    Exists,
    /// A reset of the stream is outstanding.
    Pending,
    Refused,
    OutOfMemory,
}

impl Opening {
    /// What a result is to streams.
    pub fn of(answer: Result<(), AssocError>) -> Opening
        ensures { result ≡ opening_of answer }
    {
        match answer {
            Ok(()) => Opening::Done,
            Err(AssocError::StreamExists) => Opening::Exists,
            Err(AssocError::ResetPending) => Opening::Pending,
            Err(AssocError::NoStream) => Opening::Refused,
            Err(AssocError::TooLong) => Opening::Refused,
            Err(AssocError::Closing) => Opening::Refused,
            Err(AssocError::Fault) => Opening::Refused,
            Err(AssocError::Alloc) => Opening::OutOfMemory,
        }
    }
}
