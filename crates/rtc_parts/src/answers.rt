//! A result that lends a stream, with None in place of the reason.
ghost use Rattle.std.specs.Prelude.{◌≡◌};
ghost use Rattle.rtc_parts.specs.NoStream.{none_where_declined};

use crate::NoStream;
use std::alloc::AllocError;

/// The result with None in place of `Declined`.
pub fn answer_of<T>(lent: Result<&mut T, NoStream>) -> Result<Option<&mut T>, AllocError>
    ensures { result ≡ none_where_declined lent.entry }
{
    match lent {
        Ok(stream) => Ok(Some(stream)),
        Err(NoStream::Declined) => Ok(None),
        Err(NoStream::Alloc) => Err(AllocError),
    }
}
