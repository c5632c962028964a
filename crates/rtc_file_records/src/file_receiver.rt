//! The receiving end of a file.
ghost use Rattle.std.specs.Prelude.{◌≡◌, false, length, Some};
ghost use Rattle.sha2.specs.Sha256.{sha256};
ghost use Rattle.rtc_file_records.specs.Receiving.{nothing_received, refusal_by, TakesMessage};
ghost use Rattle.rtc_file_records.specs.Records.{record_in};
ghost use Rattle.rtc_file_records.specs.declared.file_record.FileRecord.TheVariants.{Begin, Piece, End, Resume};

use crate::record_view::RecordView;
use crate::{Announced, FileError, FileRecord};
use rtc_wire::Text;
use sha2::{Digest, Sha256};
use std::alloc::Global;
use std::marker::Model;

/// Takes the records of a file, over as many sessions as it needs.
///
/// The name and the total of the first Begin hold for all sessions, and what was received is kept between them.
#[derive(Debug, Drop)]
pub struct FileReceiver {
    announced: Option<Announced>,
    begun: bool,
    held: Vec<u8>,
    whole: bool,
}

impl Model for FileReceiver {
    ghost use Rattle.rtc_file_records.specs.Receiving.{ReceivedFile};

    ghost Value = { ReceivedFile };

    ghost use Rattle.rtc_file_records.specs.FileReceiver.{received_of};

    ghost view = { received_of };
}

impl FileReceiver {
    /// A receiver that received nothing.
    pub fn new(alloc: Global) -> FileReceiver
        ensures { result ≡ nothing_received }
    {
        FileReceiver {
            announced: None,
            begun: false,
            held: Vec::new(alloc),
            whole: false,
        }
    }

    /// Starts a session: the next record is to be a Begin.
    pub fn begin_session(&mut self)
        ensures { self.new ≡ record self.old { begun = false } }
    {
        self.begun = false;
    }

    /// The record that asks the sender to go on behind what is held.
    pub fn resume(&self) -> FileRecord
        ensures { result ≡ Resume (length self.now.held) }
    {
        FileRecord::Resume {
            offset: self.held.len() as u64,
        }
    }

    /// The received bytes, lent: a front of the file as its sender sends it.
    pub fn held(&self) -> &[u8]
        ensures { result.now ≡ self.now.held }
    {
        self.held.as_slice()
    }

    /// Whether an End was taken.
    pub fn is_whole(&self) -> bool
        ensures { result ≡ self.now.whole }
    {
        self.whole
    }

    fn begin_refusal(&self, name: &str, total: u64) -> Option<FileError>
        ensures { result ≡ refusal_by self.now (Some (Begin name.now total)) }
    {
        if self.whole || self.begun {
            return Some(FileError::Order);
        }
        match &self.announced {
            Some(announced) if !announced.is_same(name, total) => Some(FileError::OtherFile),
            _ => None,
        }
    }

    fn take_begin(&mut self, name: &str, total: u64) -> Result<bool, FileError>
        ensures { TakesMessage result self.old (Some (Begin name.now total)) self.new }
    {
        if let Some(why) = self.begin_refusal(name, total) {
            return Err(why);
        }
        if self.announced.is_none() {
            let name = Text::from_str(*self.held.allocator(), name)?;
            self.announced = Some(Announced { name, total });
        }
        self.begun = true;
        Ok(false)
    }

    fn piece_refusal(&self, offset: u64, bytes: &[u8]) -> Option<FileError>
        ensures { result ≡ refusal_by self.now (Some (Piece offset bytes.now)) }
    {
        if self.whole || !self.begun {
            return Some(FileError::Order);
        }
        let held = self.held.len() as u64;
        if offset != held {
            return Some(FileError::Gap { held, got: offset });
        }
        let would = held + bytes.len() as u64;
        match &self.announced {
            Some(announced) if announced.total < would => Some(FileError::TooMuch {
                total: announced.total,
                would,
            }),
            _ => None,
        }
    }

    fn take_piece(&mut self, offset: u64, bytes: &[u8]) -> Result<bool, FileError>
        ensures { TakesMessage result self.old (Some (Piece offset bytes.now)) self.new }
    {
        if let Some(why) = self.piece_refusal(offset, bytes) {
            return Err(why);
        }
        self.held.extend_from_slice(bytes)?;
        Ok(false)
    }

    fn end_refusal(&self, total: u64, digest: &[u8; 32]) -> Option<FileError>
        ensures { result ≡ refusal_by self.now (Some (End total digest.now)) }
    {
        if self.whole || !self.begun {
            return Some(FileError::Order);
        }
        match &self.announced {
            Some(announced) if announced.total != total => return Some(FileError::OtherFile),
            _ => {}
        }
        let held = self.held.len() as u64;
        if held < total {
            return Some(FileError::Short { total, held });
        }
        let kept = Sha256::digest(self.held.as_slice());
        if digest.as_slice() != kept.as_slice() {
            return Some(FileError::Mismatch { kept, got: *digest });
        }
        None
    }

    fn take_end(&mut self, total: u64, digest: &[u8; 32]) -> Result<bool, FileError>
        ensures { TakesMessage result self.old (Some (End total digest.now)) self.new }
    {
        match self.end_refusal(total, digest) {
            Some(why) => Err(why),
            None => {
                self.whole = true;
                Ok(true)
            }
        }
    }

    /// Takes a message; returns true if it was the End, and the file is whole.
    pub fn take(&mut self, message: &[u8]) -> Result<bool, FileError>
        ensures { TakesMessage result self.old (record_in message.now) self.new }
    {
        match RecordView::read(message) {
            None => Err(FileError::BadRecord),
            Some(RecordView::Begin { name, total }) => self.take_begin(name, total),
            Some(RecordView::Piece { offset, bytes }) => self.take_piece(offset, bytes),
            Some(RecordView::End { total, digest }) => self.take_end(total, &digest),
            Some(RecordView::Resume { .. }) => Err(FileError::Order),
        }
    }
}
