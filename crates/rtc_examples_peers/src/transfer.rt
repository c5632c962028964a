//! A file that is sent, and what is received of it.
use crate::outputs::Outputs;
use crate::polled::Polled;
use rtc_file_records::{FileReceiver, FileSender};
use rtc_wire::{Bytes, ChannelId};
use std::alloc::{AllocError, Global};

// No file of a stored example has so many records.
const RECORDS: usize = 1000;

/// A file that is sent over the first channel of two peers, the record that it did not take, and what takes the records at the other side.
#[derive(Drop)]
pub struct Transfer<'a> {
    alloc: Global,
    sender: FileSender<'a>,
    waiting: Option<Bytes>,
    receiver: FileReceiver,
    is_faulty: bool,
}

impl<'a> Transfer<'a> {
    /// Nothing was sent of a file.
    pub fn new(alloc: Global, file: &'a [u8]) -> Result<Transfer<'a>, AllocError> {
        let sender = FileSender::new(alloc, "file", file)?;
        Ok(Transfer {
            alloc,
            sender,
            waiting: None,
            receiver: FileReceiver::new(alloc),
            is_faulty: false,
        })
    }

    /// Whether the End of the file was received.
    pub fn is_whole(&self) -> bool {
        self.receiver.is_whole()
    }

    /// Whether a file was received whole, and each message was a record of it.
    pub fn has(&self, file: &[u8]) -> bool {
        self.receiver.is_whole() & !self.is_faulty & (self.receiver.held() == file)
    }

    fn make_next(&mut self) -> Result<Option<Bytes>, AllocError> {
        match self.sender.next()? {
            Some(record) => {
                let bytes = record.write(self.alloc)?;
                Ok(Some(bytes))
            }
            None => Ok(None),
        }
    }

    fn next(&mut self) -> Option<Bytes> {
        if let Some(record) = self.waiting.take() {
            return Some(record);
        }
        match self.make_next() {
            Ok(made) => made,
            Err(_) => {
                self.is_faulty = true;
                None
            }
        }
    }

    // A record that was not taken waits.
    fn keep(&mut self, record: Bytes, taken: bool) -> bool {
        if !taken {
            self.waiting = Some(record);
        }
        taken
    }

    /// Writes records to the channel, until it takes none or none is left.
    pub fn write_on<P: Polled>(&mut self, peer: &mut P) {
        for _ in 0..RECORDS {
            let Some(record) = self.next() else {
                return;
            };
            let taken = peer.write(ChannelId::new(0), true, record.as_slice());
            if !self.keep(record, taken) {
                return;
            }
        }
    }

    /// Takes the received messages.
    pub fn take(&mut self, outputs: &mut Outputs) {
        for message in outputs.messages.as_slice() {
            if self.receiver.take(message.as_slice()).is_err() {
                self.is_faulty = true;
            }
        }
        outputs.messages.clear();
    }
}
