//! The records of a file.
ghost use Rattle.std.specs.Prelude.{◌≡◌, ◌≤◌, ◌<◌, ◌↔◌, ◌⊎◌, ◌++◌, ◌∷◌, length, IfOk, OnOk, OnErr, IsErrOf, Some, None};
ghost use Rattle.rtc_file_records.specs.declared.file_record.FileRecord.TheVariants as records;
ghost use Rattle.rtc_file_records.specs.Records.{CanBeSent, IsRecord, record_bytes, record_in};

use crate::FileError;
use crate::record_view::RecordView;
use rtc_wire::{Bytes, Text};
use std::alloc::{AllocError, Global};

/// The most bytes of the name in a Begin.
pub const NAME_LIMIT: usize = 65_535;

/// The most bytes of a piece.
pub const PIECE_LIMIT: usize = 16_384;

/// One message of a file. Numbers are big-endian, and nothing follows a record.
#[derive(Debug, PartialEq, Eq, Drop)]
pub enum FileRecord {
    /// `01`, the length of the name as u16, the name in UTF-8, and the number of bytes of the whole file.
    Begin { name: Text, total: u64 },
    /// `02`, the place of the first byte, and the bytes.
    Piece { offset: u64, bytes: Bytes },
    /// `03`, the number of bytes of the whole file, and its SHA-256.
    End { total: u64, digest: [u8; 32] },
    /// `04` and the place at which the next session is to start.
    Resume { offset: u64 },
}

pub const BEGIN: u8 = 0x01;

pub const PIECE: u8 = 0x02;

pub const END: u8 = 0x03;

pub const RESUME: u8 = 0x04;

fn joined(
    alloc: Global,
    kind: u8,
    first: &[u8],
    second: &[u8],
    third: &[u8],
) -> Result<Bytes, AllocError>
    requires first { length first.now ≤ 65536 }
    requires second { length second.now ≤ 65536 }
    requires third { length third.now ≤ 65536 }
    ensures { IfOk result (λ bytes. bytes ≡ kind ∷ first.now ++ second.now ++ third.now) }
{
    let size = 1 + first.len() + second.len() + third.len();
    let mut bytes = Vec::with_capacity(alloc, size)?;
    bytes.push(kind)?;
    bytes.extend_from_slice(first)?;
    bytes.extend_from_slice(second)?;
    bytes.extend_from_slice(third)?;
    Ok(Bytes::new(bytes))
}

#[tactic(auto, unfolding(crate::specs::Records::record_bytes))]
fn begin_bytes(alloc: Global, name: &str, total: u64) -> Result<Bytes, AllocError>
    requires { length name.now ≤ 65535 }
    ensures bytes { IfOk result (λ bytes. bytes ≡ record_bytes (records.Begin name.now total)) }
    ensures again { record_in (record_bytes (records.Begin name.now total)) ≡ Some (records.Begin name.now total) }
{
    let [n0, n1] = (name.len() as u16).to_be_bytes();
    let text = name.as_bytes();
    joined(alloc, BEGIN, &[n0, n1], text, &total.to_be_bytes())
}

#[tactic(auto, unfolding(crate::specs::Records::record_bytes))]
fn piece_bytes(alloc: Global, offset: u64, bytes: &[u8]) -> Result<Bytes, AllocError>
    requires some { 0 < length bytes.now }
    requires few { length bytes.now ≤ 16384 }
    ensures bytes { IfOk result (λ message. message ≡ record_bytes (records.Piece offset bytes.now)) }
    ensures again { record_in (record_bytes (records.Piece offset bytes.now)) ≡ Some (records.Piece offset bytes.now) }
{
    joined(alloc, PIECE, &offset.to_be_bytes(), bytes, b"")
}

#[tactic(auto, unfolding(crate::specs::Records::record_bytes))]
fn end_bytes(alloc: Global, total: u64, digest: &[u8; 32]) -> Result<Bytes, AllocError>
    ensures bytes { IfOk result (λ bytes. bytes ≡ record_bytes (records.End total digest.now)) }
    ensures again { record_in (record_bytes (records.End total digest.now)) ≡ Some (records.End total digest.now) }
{
    joined(alloc, END, &total.to_be_bytes(), digest, b"")
}

#[tactic(auto, unfolding(crate::specs::Records::record_bytes))]
fn resume_bytes(alloc: Global, offset: u64) -> Result<Bytes, AllocError>
    ensures bytes { IfOk result (λ bytes. bytes ≡ record_bytes (records.Resume offset)) }
    ensures again { record_in (record_bytes (records.Resume offset)) ≡ Some (records.Resume offset) }
{
    joined(alloc, RESUME, &offset.to_be_bytes(), b"", b"")
}

impl FileRecord {
    /// Reads a record. A refusal is made before memory is taken.
    pub fn read(alloc: Global, bytes: &[u8]) -> Result<FileRecord, FileError>
        ensures is { IfOk result (λ made. IsRecord bytes.now made) }
        ensures bad { IsErrOf result FileError.BadRecord ↔ (record_in bytes.now ≡ None) }
        ensures errors { OnErr result (IsErrOf result FileError.BadRecord ⊎ IsErrOf result FileError.Alloc) }
    {
        match RecordView::read(bytes) {
            None => Err(FileError::BadRecord),
            Some(RecordView::Begin { name, total }) => {
                let name = Text::from_str(alloc, name)?;
                Ok(FileRecord::Begin { name, total })
            }
            Some(RecordView::Piece { offset, bytes }) => {
                let bytes = Bytes::new(Vec::from_slice(alloc, bytes)?);
                Ok(FileRecord::Piece { offset, bytes })
            }
            Some(RecordView::End { total, digest }) => Ok(FileRecord::End { total, digest }),
            Some(RecordView::Resume { offset }) => Ok(FileRecord::Resume { offset }),
        }
    }

    /// Writes the record, as one message.
    pub fn write(&self, alloc: Global) -> Result<Bytes, AllocError>
        requires { CanBeSent self.now }
        ensures bytes { IfOk result (λ bytes. bytes ≡ record_bytes self.now) }
        ensures again { record_in (record_bytes self.now) ≡ Some self.now }
    {
        match self {
            FileRecord::Begin { name, total } => begin_bytes(alloc, name.as_str(), *total),
            FileRecord::Piece { offset, bytes } => piece_bytes(alloc, *offset, bytes.as_slice()),
            FileRecord::End { total, digest } => end_bytes(alloc, *total, digest),
            FileRecord::Resume { offset } => resume_bytes(alloc, *offset),
        }
    }
}
