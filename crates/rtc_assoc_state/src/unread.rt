//! The messages that are not read.
ghost use Rattle.std.specs.Prelude.{◌≡◌, ◌++◌, [], OnOk, OnErr};
ghost use Rattle.rtc_assoc_state.specs.Headers.{item_with};
ghost use Rattle.rtc_assoc_state.specs.Inbox.{bytes_so_far, without_part, with_message, without_messages, message_of};
ghost use Rattle.rtc_assoc_state.specs.Calls.{first_message_of, messages_behind};

use crate::ItemHeader;
use crate::message::Message;
use crate::parts::Parts;
use crate::queued::{forget_messages, make_room, put, take};
use std::alloc::{AllocError, Global};
use std::collections::{BTreeMap, VecDeque};
use std::marker::Model;

/// The messages that are not read, in a queue for each stream that has some. A contract sees one list of them.
pub struct Unread {
    queues: BTreeMap<u16, VecDeque<Message>>,
}

impl Model for Unread {
    ghost use Rattle.std.specs.Prelude.{List};
    ghost use Rattle.std.specs.VecDeque.{deque_items};
    ghost use Rattle.rtc_assoc_state.specs.declared.message.Message.{Message};
    ghost use Rattle.rtc_assoc_state.specs.Queued.{all_queued, SoundQueues, stream_of_message};

    ghost Value = { List Message };

    ghost view = { λ u. all_queued deque_items u.queues.entries };

    ghost invariant = { λ u. SoundQueues deque_items stream_of_message u.queues };
}

// Written out, so that the proof of what owns the messages sees one call and not the drop of each field.
impl Drop for Unread {
    fn drop(self) {
        let Unread { queues: _queues } = self;
    }
}

impl Unread {
    /// No messages. No memory is taken.
    pub fn new(alloc: Global) -> Unread
        ensures { result ≡ [] }
    {
        Unread {
            queues: BTreeMap::new(alloc),
        }
    }

    /// Keeps a last piece, which makes a whole message. It is put behind the pieces before it, if there are any.
    pub fn keep_last(
        &mut self,
        alloc: Global,
        parts: &mut Parts,
        item: ItemHeader,
        bytes: &[u8],
    ) -> Result<(), AllocError>
        ensures parts { OnOk result (parts.new ≡ without_part item.stream item.generation parts.old) }
        ensures unread { OnOk result (self.new
            ≡ with_message (message_of (item_with item bytes.now)
            (bytes_so_far item.stream item.generation parts.old ++ bytes.now)) self.old) }
        ensures same_parts { OnErr result (parts.new ≡ parts.old) }
        ensures same_unread { OnErr result (self.new ≡ self.old) }
    {
        let stream = item.stream;
        let generation = item.generation;
        let identifier = item.identifier;
        make_room(alloc, &mut self.queues, stream)?;
        parts.keep_more(alloc, item, bytes)?;
        let bytes = parts.take(alloc, stream, generation);
        put(
            &mut self.queues,
            Message {
                stream,
                generation,
                identifier,
                bytes,
            },
        );
        Ok(())
    }

    /// Drops what was received of a generation of a stream.
    pub fn forget(&mut self, parts: &mut Parts, stream: u16, generation: u32)
        ensures parts { parts.new ≡ without_part stream generation parts.old }
        ensures unread { self.new ≡ without_messages stream generation self.old }
    {
        parts.forget(stream, generation);
        forget_messages(&mut self.queues, stream, generation);
    }

    /// Takes out the first message of a generation of a stream.
    pub fn take_out(&mut self, stream: u16, generation: u32) -> Option<Message>
        ensures message { result ≡ first_message_of stream generation self.old }
        ensures rest { self.new ≡ messages_behind stream generation self.old }
    {
        take(&mut self.queues, stream, generation)
    }
}
