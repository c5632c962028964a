//! The sending end of a file.
ghost use Rattle.std.specs.Prelude.{◌≡◌, ◌≤◌, ◌<◌, length, take, drop, slice_get, nat_le, if◌then◌else◌, IfOk, IfSome, OnOk, OnErr, Some};
ghost use Rattle.rtc_file_records.specs.Records.{CanBeSent};
ghost use Rattle.rtc_file_records.specs.declared.file_record.FileRecord.TheVariants.{Piece};
ghost use Rattle.rtc_file_records.specs.Sending.{session_from};

use crate::{FileRecord, PIECE_LIMIT};
use rtc_wire::{Bytes, Text, TryCopy};
use sha2::{Digest, Sha256};
use std::alloc::{AllocError, Global};
use std::marker::Model;

/// The progress of a session.
#[derive(Clone, Copy, Debug, PartialEq, Eq)]
enum Stage {
    /// The Begin is next.
    Begin,
    /// The piece at the offset is next, or the End if no byte is left.
    Pieces,
    /// The End was given.
    Done,
}

/// Gives the records of a file, a session at a time.
#[derive(Drop)]
pub struct FileSender<'a> {
    alloc: Global,
    name: Text,
    file: &'a [u8],
    offset: usize,
    stage: Stage,
}

impl<'a> Model for FileSender<'a> {
    ghost use Rattle.rtc_file_records.specs.Sending.{SentFile};

    ghost Value = { SentFile };

    ghost use Rattle.rtc_file_records.specs.FileSender.{sent_of, IsSending};

    ghost view = { sent_of };

    ghost invariant = { IsSending };
}

// The piece of a file at an offset: as many bytes as there are, up to the limit.
fn piece_at(alloc: Global, file: &[u8], offset: usize) -> Result<FileRecord, AllocError>
    requires { offset < length file.now }
    ensures piece { IfOk result (λ made. made ≡ Piece offset (take 16384 (drop offset file.now))) }
    ensures sent { IfOk result CanBeSent }
{
    let count = (file.len() - offset).min(PIECE_LIMIT);
    let bytes = Vec::from_slice(alloc, &file[offset..offset + count])?;
    Ok(FileRecord::Piece {
        offset: offset as u64,
        bytes: Bytes::new(bytes),
    })
}

impl<'a> FileSender<'a> {
    /// A sender of a file, at the start of a session that sends all of it.
    pub fn new(alloc: Global, name: &str, file: &'a [u8]) -> Result<FileSender<'a>, AllocError>
        requires { length name.now ≤ 65535 }
        ensures { IfOk result (λ sender. sender ≡ record { name = name.now; file = file.now; left = session_from name.now 0 file.now }) }
    {
        let name = Text::from_str(alloc, name)?;
        Ok(FileSender {
            alloc,
            name,
            file,
            offset: 0,
            stage: Stage::Begin,
        })
    }

    /// Starts a session at an offset, which a Resume of the receiver gives; false if that is behind the end of the file.
    pub fn resume(&mut self, offset: u64) -> bool
        ensures answer { result ≡ nat_le offset (length self.old.file) }
        ensures after { self.new
            ≡ (if result then record self.old { left = session_from self.old.name offset self.old.file } else self.old) }
    {
        if offset > self.file.len() as u64 {
            return false;
        }
        self.offset = offset as usize;
        self.stage = Stage::Begin;
        true
    }

    /// The next record of the session; None behind the End.
    pub fn next(&mut self) -> Result<Option<FileRecord>, AllocError>
        ensures next { IfOk result (λ made. made ≡ slice_get self.old.left 0) }
        ensures after { OnOk result (self.new ≡ record self.old { left = drop 1 self.old.left }) }
        ensures lacking { OnErr result (self.new ≡ self.old) }
        ensures sent { IfOk result (λ made. IfSome made CanBeSent) }
    {
        match self.stage {
            Stage::Begin => {
                let name = self.name.copy()?;
                self.stage = Stage::Pieces;
                Ok(Some(FileRecord::Begin {
                    name,
                    total: self.file.len() as u64,
                }))
            }
            Stage::Pieces if self.offset < self.file.len() => {
                let piece = piece_at(self.alloc, self.file, self.offset)?;
                self.offset += (self.file.len() - self.offset).min(PIECE_LIMIT);
                Ok(Some(piece))
            }
            Stage::Pieces => {
                self.stage = Stage::Done;
                Ok(Some(FileRecord::End {
                    total: self.file.len() as u64,
                    digest: Sha256::digest(self.file),
                }))
            }
            Stage::Done => Ok(None),
        }
    }
}
