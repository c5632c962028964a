//! What an association returns, as streams distinguish it.
ghost use Rattle.std.specs.Prelude.{◌≡◌};
ghost use Rattle.rtc_sctp_entries.specs.Answers.{asked_of};

use rtc_parts::AssocError;

/// Whether an association did what it was asked for.
#[derive(Clone, Copy, Debug, PartialEq, Eq)]
pub enum Asked {
    Done,
    Refused,
    OutOfMemory,
}

impl Asked {
    /// What a result is to streams.
    pub fn of<T: Drop>(answer: Result<T, AssocError>) -> Asked
        ensures { result ≡ asked_of answer }
    {
        match answer {
            Ok(_) => Asked::Done,
            Err(AssocError::StreamExists) => Asked::Refused,
            Err(AssocError::ResetPending) => Asked::Refused,
            Err(AssocError::NoStream) => Asked::Refused,
            Err(AssocError::TooLong) => Asked::Refused,
            Err(AssocError::Closing) => Asked::Refused,
            Err(AssocError::Fault) => Asked::Refused,
            Err(AssocError::Alloc) => Asked::OutOfMemory,
        }
    }
}
