//! Received messages that are not read.
ghost use Rattle.std.specs.Prelude.{◌≡◌, OnOk, OnErr, position};
ghost use Rattle.rtc_assoc_state.specs.Inbox.{bytes_so_far, with_more, without_part, without_messages};
ghost use Rattle.rtc_assoc_state.specs.Inbox.{is_part_of, is_message_of};
ghost use Rattle.rtc_assoc_state.specs.Calls.{first_message_of, messages_behind};

use crate::ItemHeader;
use crate::message::Message;
use crate::partial::Partial;
use rtc_wire::Bytes;
use std::alloc::{AllocError, Global};
use std::collections::VecDeque;

/// The place of the message of a generation of a stream whose last piece is missing.
fn place_of(parts: &[Partial], stream: u16, generation: u32) -> Option<usize>
    ensures { result ≡ position (is_part_of stream generation) parts.now }
{
    parts.iter().position(|p| p.is_of(stream, generation))
}

/// Keeps a piece with more to follow: its bytes are copied behind those before it.
pub fn keep_more(
    alloc: Global,
    parts: &mut Vec<Partial>,
    item: ItemHeader,
    bytes: &[u8],
) -> Result<(), AllocError>
    ensures ok { OnOk result (parts.new.items ≡ with_more item.stream item.generation bytes.now parts.old.items) }
    ensures err { OnErr result (parts.new.items ≡ parts.old.items) }
{
    match place_of(parts.as_slice(), item.stream, item.generation) {
        Some(place) => {
            let part = &mut parts[place];
            part.extend(bytes)?;
        }
        None => {
            let part = Partial::begun(alloc, item, bytes)?;
            parts.push(part)?;
        }
    }
    Ok(())
}

/// Takes out what was received of a message: its bytes, joined in place.
pub fn take_part(alloc: Global, parts: &mut Vec<Partial>, stream: u16, generation: u32) -> Bytes
    ensures bytes { result ≡ bytes_so_far stream generation parts.old.items }
    ensures rest { parts.new.items ≡ without_part stream generation parts.old.items }
{
    match place_of(parts.as_slice(), stream, generation) {
        None => Bytes::new(Vec::new(alloc)),
        Some(place) => {
            let part = parts.remove(place);
            parts.retain(|p| !p.is_of(stream, generation));
            part.into_bytes()
        }
    }
}

/// Drops what was received of a message.
pub fn drop_part(parts: &mut Vec<Partial>, stream: u16, generation: u32)
    ensures { parts.new.items ≡ without_part stream generation parts.old.items }
{
    parts.retain(|p| !p.is_of(stream, generation));
}

/// Drops the messages of a generation of a stream.
pub fn drop_messages(unread: &mut VecDeque<Message>, stream: u16, generation: u32)
    ensures { unread.new.items ≡ without_messages stream generation unread.old.items }
{
    unread.retain(|m| !m.is_of(stream, generation));
}

fn message_place(unread: &VecDeque<Message>, stream: u16, generation: u32) -> Option<usize>
    ensures { result ≡ position (is_message_of stream generation) unread.now.items }
{
    unread.iter().position(|m| m.is_of(stream, generation))
}

/// Takes out the first message of a generation of a stream.
pub fn take_out(unread: &mut VecDeque<Message>, stream: u16, generation: u32) -> Option<Message>
    ensures message { result ≡ first_message_of stream generation unread.old.items }
    ensures rest { unread.new.items ≡ messages_behind stream generation unread.old.items }
{
    match message_place(unread, stream, generation) {
        Some(place) => unread.remove(place),
        None => None,
    }
}
