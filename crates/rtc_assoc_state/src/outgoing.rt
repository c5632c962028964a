//! Items on their way out.
ghost use Rattle.std.specs.Prelude.{◌≡◌, ◌≤◌, length, IfOk};
ghost use Rattle.rtc_assoc_state.specs.Pieces.{piece, close_of};

use crate::{Item, ItemPart};
use rtc_wire::Bytes;
use std::alloc::{AllocError, Global};
use std::marker::Model;

/// An item that fits a packet. A contract sees the item.
#[derive(Debug, Drop)]
pub struct Outgoing {
    item: Item,
}

impl Model for Outgoing {
    ghost use Rattle.std.specs.Prelude.{◌≤◌, length};
    ghost use Rattle.rtc_assoc_state.specs.declared.item.Item.{Item};

    ghost Value = { Item };

    ghost view = { λ o. o.item };

    ghost invariant = { λ o. length o.item.bytes ≤ 1872 };
}

impl Outgoing {
    /// A piece of a message, the last one or not.
    pub fn piece(
        alloc: Global,
        stream: u16,
        generation: u32,
        part: ItemPart,
        identifier: u32,
        bytes: &[u8],
    ) -> Result<Outgoing, AllocError>
        requires { length bytes.now ≤ 1872 }
        ensures { IfOk result (λ o. o ≡ piece stream generation part identifier bytes.now) }
    {
        let bytes = Bytes::new(Vec::from_slice(alloc, bytes)?);
        Ok(Outgoing {
            item: Item {
                stream,
                generation,
                part,
                identifier,
                bytes,
            },
        })
    }

    /// The close of a stream.
    pub fn close(alloc: Global, stream: u16, generation: u32) -> Outgoing
        ensures { result ≡ close_of stream generation }
    {
        Outgoing {
            item: Item {
                stream,
                generation,
                part: ItemPart::Close,
                identifier: 0,
                bytes: Bytes::new(Vec::new(alloc)),
            },
        }
    }

    /// The item, lent.
    pub fn item(&self) -> &Item
        ensures value { result.now ≡ self.now }
        ensures short { length self.now.bytes ≤ 1872 }
    {
        &self.item
    }
}
