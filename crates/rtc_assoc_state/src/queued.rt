//! Queues of unread messages, by stream.
ghost use Rattle.std.specs.Prelude.{◌≡◌, [], None, Some, Ok, OnOk, IfOk, IfSome, OnSome};
ghost use Rattle.std.specs.Bool.{OnTrue};
ghost use Rattle.std.specs.Ordering.{nat_cmp};
ghost use Rattle.std.specs.BTreeMap.{get};
ghost use Rattle.std.specs.VecDeque.{deque_items, deque_len, deque_capacity};
ghost use Rattle.rtc_assoc_state.specs.Inbox.{with_message, without_messages};
ghost use Rattle.rtc_assoc_state.specs.Calls.{first_message_of, messages_behind};
ghost use Rattle.rtc_assoc_state.specs.Queued.{all_queued, SoundQueues, TakesOneMore, stream_of_message};

use crate::inbox::{drop_messages, take_out};
use crate::message::Message;
use crate::queues::enqueue;
use std::alloc::{AllocError, Global};
use std::collections::{BTreeMap, VecDeque};

/// Begins the queue of a stream that has none, with room for a message.
fn begin(
    alloc: Global,
    queues: &mut BTreeMap<u16, VecDeque<Message>>,
    stream: u16,
) -> Result<(), AllocError>
    requires sound { SoundQueues deque_items stream_of_message queues.old }
    requires absent { get nat_cmp queues.old stream ≡ None }
    ensures same { all_queued deque_items queues.new.entries ≡ all_queued deque_items queues.old.entries }
    ensures sound { SoundQueues deque_items stream_of_message queues.new }
    ensures room { OnOk result (TakesOneMore deque_len deque_capacity stream queues.new) }
{
    let queue = VecDeque::with_capacity(alloc, 1)?;
    queues.insert(stream, queue)?;
    Ok(())
}

/// Makes room in the queue of a stream that has one.
fn grow(queues: &mut BTreeMap<u16, VecDeque<Message>>, stream: u16) -> Result<(), AllocError>
    requires { SoundQueues deque_items stream_of_message queues.old }
    ensures same { all_queued deque_items queues.new.entries ≡ all_queued deque_items queues.old.entries }
    ensures sound { SoundQueues deque_items stream_of_message queues.new }
    ensures room { OnOk result (TakesOneMore deque_len deque_capacity stream queues.new) }
{
    match queues.get_mut(&stream) {
        None => Err(AllocError),
        Some(queue) => queue.reserve(1),
    }
}

/// Makes room for one more message of a stream.
pub fn make_room(
    alloc: Global,
    queues: &mut BTreeMap<u16, VecDeque<Message>>,
    stream: u16,
) -> Result<(), AllocError>
    requires { SoundQueues deque_items stream_of_message queues.old }
    ensures same { all_queued deque_items queues.new.entries ≡ all_queued deque_items queues.old.entries }
    ensures sound { SoundQueues deque_items stream_of_message queues.new }
    ensures room { OnOk result (TakesOneMore deque_len deque_capacity stream queues.new) }
{
    if queues.contains_key(&stream) {
        return grow(queues, stream);
    }
    begin(alloc, queues, stream)
}

/// Puts a message at the end of the queue of its stream, in room that was made.
pub fn put(queues: &mut BTreeMap<u16, VecDeque<Message>>, message: Message)
    requires sound { SoundQueues deque_items stream_of_message queues.old }
    requires room { TakesOneMore deque_len deque_capacity message.stream queues.old }
    ensures messages { all_queued deque_items queues.new.entries
        ≡ with_message message (all_queued deque_items queues.old.entries) }
    ensures sound { SoundQueues deque_items stream_of_message queues.new }
{
    match queues.get_mut(&message.stream) {
        None => unreachable!(),
        Some(queue) => enqueue(queue, message),
    }
}

/// Takes out the first message of a generation of a stream.
fn take_first(
    queues: &mut BTreeMap<u16, VecDeque<Message>>,
    stream: u16,
    generation: u32,
) -> Option<Message>
    requires { SoundQueues deque_items stream_of_message queues.old }
    ensures message { result ≡ first_message_of stream generation (all_queued deque_items queues.old.entries) }
    ensures rest { all_queued deque_items queues.new.entries
        ≡ messages_behind stream generation (all_queued deque_items queues.old.entries) }
    ensures sound { SoundQueues deque_items stream_of_message queues.new }
{
    match queues.get_mut(&stream) {
        None => None,
        Some(queue) => take_out(queue, stream, generation),
    }
}

/// Drops the messages of a generation of a stream.
fn drop_all(queues: &mut BTreeMap<u16, VecDeque<Message>>, stream: u16, generation: u32)
    requires { SoundQueues deque_items stream_of_message queues.old }
    ensures rest { all_queued deque_items queues.new.entries
        ≡ without_messages stream generation (all_queued deque_items queues.old.entries) }
    ensures sound { SoundQueues deque_items stream_of_message queues.new }
{
    match queues.get_mut(&stream) {
        None => {}
        Some(queue) => drop_messages(queue, stream, generation),
    }
}

/// Whether a stream has a queue that is empty.
fn is_drained(queues: &BTreeMap<u16, VecDeque<Message>>, stream: u16) -> bool
    ensures { OnTrue result (IfSome (get nat_cmp queues.now stream) (λ queue. queue.items ≡ [])) }
{
    match queues.get(&stream) {
        None => false,
        Some(queue) => queue.is_empty(),
    }
}

/// Drops the queue of a stream if it is empty.
fn release(queues: &mut BTreeMap<u16, VecDeque<Message>>, stream: u16)
    requires { SoundQueues deque_items stream_of_message queues.old }
    ensures same { all_queued deque_items queues.new.entries ≡ all_queued deque_items queues.old.entries }
    ensures sound { SoundQueues deque_items stream_of_message queues.new }
{
    if is_drained(queues, stream) {
        queues.remove(&stream);
    }
}

/// Takes out the first message of a generation of a stream; the last one of a stream takes its queue along.
pub fn take(
    queues: &mut BTreeMap<u16, VecDeque<Message>>,
    stream: u16,
    generation: u32,
) -> Option<Message>
    requires { SoundQueues deque_items stream_of_message queues.old }
    ensures message { result ≡ first_message_of stream generation (all_queued deque_items queues.old.entries) }
    ensures rest { all_queued deque_items queues.new.entries
        ≡ messages_behind stream generation (all_queued deque_items queues.old.entries) }
    ensures sound { SoundQueues deque_items stream_of_message queues.new }
{
    let message = take_first(queues, stream, generation);
    release(queues, stream);
    message
}

/// Drops the messages of a generation of a stream, and its queue if nothing is left of it.
pub fn forget_messages(queues: &mut BTreeMap<u16, VecDeque<Message>>, stream: u16, generation: u32)
    requires { SoundQueues deque_items stream_of_message queues.old }
    ensures rest { all_queued deque_items queues.new.entries
        ≡ without_messages stream generation (all_queued deque_items queues.old.entries) }
    ensures sound { SoundQueues deque_items stream_of_message queues.new }
{
    drop_all(queues, stream, generation);
    release(queues, stream);
}
