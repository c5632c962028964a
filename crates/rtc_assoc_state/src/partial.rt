//! Messages whose last piece is still missing.
ghost use Rattle.std.specs.Prelude.{◌≡◌, ◌++◌, length, IfOk, OnOk, OnErr};
ghost use Rattle.rtc_assoc_state.specs.Inbox.{is_part_of, part};

use crate::ItemHeader;
use rtc_wire::Bytes;
use std::alloc::{AllocError, Global};
use std::marker::Model;

/// The received pieces of a message whose last piece is still missing, joined.
#[derive(Debug, Drop)]
pub struct Partial {
    stream: u16,
    generation: u32,
    bytes: Vec<u8>,
}

impl Model for Partial {
    ghost use Rattle.rtc_assoc_state.specs.MessagePart.{MessagePart};

    ghost Value = { MessagePart };

    ghost view = { λ p. record { stream = p.stream; generation = p.generation; bytes = p.bytes.items } };
}

impl Partial {
    /// What a first piece begins.
    pub fn begun(alloc: Global, item: ItemHeader, bytes: &[u8]) -> Result<Partial, AllocError>
        ensures { IfOk result (λ begun. begun ≡ part item.stream item.generation bytes.now) }
    {
        Ok(Partial {
            stream: item.stream,
            generation: item.generation,
            bytes: Vec::from_slice(alloc, bytes)?,
        })
    }

    pub fn is_of(&self, stream: u16, generation: u32) -> bool
        ensures { result ≡ is_part_of stream generation self.now }
    {
        self.stream == stream && self.generation == generation
    }

    /// Puts the bytes of one more piece at the end.
    pub fn extend(&mut self, bytes: &[u8]) -> Result<(), AllocError>
        ensures ok { OnOk result (self.new ≡ record self.old { bytes = self.old.bytes ++ bytes.now }) }
        ensures err { OnErr result (self.new ≡ self.old) }
    {
        self.bytes.extend_from_slice(bytes)?;
        Ok(())
    }

    /// The bytes so far.
    pub fn into_bytes(self) -> Bytes
        ensures { result ≡ self.bytes }
    {
        Bytes::new(self.bytes)
    }
}
