//! Messages that wait for members.
ghost use Rattle.std.specs.Prelude.{◌≡◌, IfOk};
ghost use Rattle.rtc_room_laws.specs.Members.{item_bytes, binary_byte};

use rtc_wire::{Bytes, TryCopy};
use std::alloc::{AllocError, Global};

/// A message of a member's line, with the number of its sender.
#[derive(Debug, PartialEq, Eq, Drop)]
pub struct Item {
    pub sender: u32,
    /// Whether it is binary; it is text otherwise.
    pub binary: bool,
    pub bytes: Bytes,
}

fn binary_byte(binary: bool) -> u8
    ensures { result ≡ binary_byte binary }
{
    if binary { 1 } else { 0 }
}

impl Item {
    /// What is written to the other members: the number of the sender, whether it is binary, and its bytes.
    pub fn written(&self, alloc: Global) -> Result<Bytes, AllocError>
        ensures { IfOk result (λ bytes. bytes ≡ item_bytes self.now) }
    {
        let mut bytes = Vec::new(alloc);
        bytes.extend_from_slice(&self.sender.to_be_bytes())?;
        bytes.push(binary_byte(self.binary))?;
        bytes.extend_from_slice(self.bytes.as_slice())?;
        Ok(Bytes::new(bytes))
    }
}

impl TryCopy for Item {
    fn copy(&self) -> Result<Item, AllocError> {
        Ok(Item {
            sender: self.sender,
            binary: self.binary,
            bytes: self.bytes.copy()?,
        })
    }
}
