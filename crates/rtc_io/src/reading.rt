//! Reading to the end.
ghost use Rattle.std.specs.Prelude.{◌≡◌, ℕ, ◌+◌, ◌-◌, ◌<◌, ◌≤◌, ◌^◌, List, length, IfOk, OnOk, OnErr, IfSome, IsErrOf};
ghost use Rattle.std.specs.Io.KnownBytes.{Consumes, IsAtEnd};
ghost use Rattle.rtc_io.specs.Faults.{Rose};
ghost use Rattle.rtc_io.specs.declared.reading.ReadError.TheVariants.{Alloc};

use crate::{ReadFailed, Source};
use rtc_wire::Bytes;
use std::alloc::{AllocError, Global};

/// How many bytes a program reads at most.
pub const INPUT_LIMIT: usize = 1_048_576;

/// Why bytes were not read to their end. What was taken until then is lost.
#[derive(Clone, Copy, Debug, PartialEq, Eq)]
pub enum ReadError {
    /// The source failed.
    Fault,
    /// There were more bytes than the limit.
    TooLong,
    Alloc,
}

impl From<AllocError> for ReadError {
    ghost from_gives = { λ _ error. error ≡ Alloc };

    fn from(_: AllocError) -> ReadError {
        ReadError::Alloc
    }
}

/// All bytes that are left, if there are at most `limit`. No more than one byte past the limit is taken.
pub fn read_all<R: Source>(alloc: Global, input: &mut R, limit: usize) -> Result<Bytes, ReadError>
    requires { limit < 2 ^ 64 - 1 }
    ensures bytes { IfOk result (λ bytes. Consumes (R.left input.old) (R.left input.new) bytes) }
    ensures end { OnOk result (IsAtEnd (R.left input.new)) }
    ensures within { IfOk result (λ bytes. length bytes ≤ limit) }
    ensures fits { OnOk result (IfSome (R.left input.old) (λ left. length left ≤ limit)) }
    ensures long { IsErrOf result ReadError.TooLong → IfSome (R.left input.old) (λ left. limit < length left) }
    ensures taken { OnErr result ((taken : List ℕ) × Consumes (R.left input.old) (R.left input.new) taken × (length taken ≤ limit + 1)) }
    ensures fault { IsErrOf result ReadError.Fault → Rose (R.faults input.old) (R.faults input.new) }
    ensures later { R.faults input.old ≤ R.faults input.new }
{
    let mut bytes = Vec::new(alloc);
    let mut piece = [0u8; 4096];
    while bytes.len() <= limit {
        let room = piece.len().min(limit + 1 - bytes.len());
        match input.read(&mut piece[..room]) {
            Err(ReadFailed) => return Err(ReadError::Fault),
            Ok(0) => return Ok(Bytes::new(bytes)),
            Ok(count) => bytes.extend_from_slice(&piece[..count])?,
        }
    }
    Err(ReadError::TooLong)
}
