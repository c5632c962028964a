//! The messages whose last piece is missing.
ghost use Rattle.std.specs.Prelude.{◌≡◌, [], OnOk, OnErr};
ghost use Rattle.rtc_assoc_state.specs.Inbox.{bytes_so_far, with_bytes, without_part};

use crate::ItemHeader;
use crate::part_queues::{add_piece, begin_parts, drop_joined, release_parts, take_joined};
use crate::partial::Partial;
use rtc_wire::Bytes;
use std::alloc::{AllocError, Global};
use std::collections::BTreeMap;
use std::marker::Model;

/// The messages whose last piece is missing, in a queue for each stream that has some. A contract sees one list of them.
///
/// Two ends that keep to the format have one such message of a stream at most, so that a piece is found in the logarithm of the streams.
pub struct Parts {
    queues: BTreeMap<u16, Vec<Partial>>,
}

impl Model for Parts {
    ghost use Rattle.std.specs.Prelude.{List};
    ghost use Rattle.std.specs.Vec.{vec_items};
    ghost use Rattle.rtc_assoc_state.specs.MessagePart.{MessagePart};
    ghost use Rattle.rtc_assoc_state.specs.Queued.{all_queued, SoundQueues, stream_of_part};

    ghost Value = { List MessagePart };

    ghost view = { λ p. all_queued vec_items p.queues.entries };

    ghost invariant = { λ p. SoundQueues vec_items stream_of_part p.queues };
}

// Written out, so that the proof of what owns the parts sees one call and not the drop of each field.
impl Drop for Parts {
    fn drop(self) {
        let Parts { queues: _queues } = self;
    }
}

impl Parts {
    /// No messages. No memory is taken.
    pub fn new(alloc: Global) -> Parts
        ensures { result ≡ [] }
    {
        Parts {
            queues: BTreeMap::new(alloc),
        }
    }

    /// Keeps a piece with more to follow: its bytes are copied behind those before it.
    pub fn keep_more(
        &mut self,
        alloc: Global,
        item: ItemHeader,
        bytes: &[u8],
    ) -> Result<(), AllocError>
        ensures ok { OnOk result (self.new ≡ with_bytes item.stream item.generation bytes.now self.old) }
        ensures left { OnOk result (without_part item.stream item.generation self.new
            ≡ without_part item.stream item.generation self.old) }
        ensures err { OnErr result (self.new ≡ self.old) }
    {
        begin_parts(alloc, &mut self.queues, item.stream)?;
        add_piece(alloc, &mut self.queues, item, bytes)?;
        Ok(())
    }

    /// Takes out what was received of a message: its bytes, joined.
    pub fn take(&mut self, alloc: Global, stream: u16, generation: u32) -> Bytes
        ensures bytes { result ≡ bytes_so_far stream generation self.old }
        ensures rest { self.new ≡ without_part stream generation self.old }
    {
        let bytes = take_joined(alloc, &mut self.queues, stream, generation);
        release_parts(&mut self.queues, stream);
        bytes
    }

    /// Drops what was received of a message.
    pub fn forget(&mut self, stream: u16, generation: u32)
        ensures { self.new ≡ without_part stream generation self.old }
    {
        drop_joined(&mut self.queues, stream, generation);
        release_parts(&mut self.queues, stream);
    }
}
