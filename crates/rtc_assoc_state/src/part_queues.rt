//! Queues of messages whose last piece is missing, by stream.
ghost use Rattle.std.specs.Prelude.{◌≡◌, [], None, IsSome, OnOk, OnErr, IfSome};
ghost use Rattle.std.specs.Bool.{OnTrue};
ghost use Rattle.std.specs.Ordering.{nat_cmp};
ghost use Rattle.std.specs.BTreeMap.{get};
ghost use Rattle.std.specs.Vec.{vec_items};
ghost use Rattle.rtc_assoc_state.specs.Inbox.{bytes_so_far, with_bytes, without_part};
ghost use Rattle.rtc_assoc_state.specs.Queued.{all_queued, SoundQueues, stream_of_part};

use crate::ItemHeader;
use crate::inbox::{drop_part, keep_more, take_part};
use crate::partial::Partial;
use rtc_wire::Bytes;
use std::alloc::{AllocError, Global};
use std::collections::BTreeMap;

/// Begins the queue of a stream that has none.
fn begin(
    alloc: Global,
    queues: &mut BTreeMap<u16, Vec<Partial>>,
    stream: u16,
) -> Result<(), AllocError>
    requires sound { SoundQueues vec_items stream_of_part queues.old }
    requires absent { get nat_cmp queues.old stream ≡ None }
    ensures same { all_queued vec_items queues.new.entries ≡ all_queued vec_items queues.old.entries }
    ensures sound { SoundQueues vec_items stream_of_part queues.new }
    ensures there { OnOk result (IsSome (get nat_cmp queues.new stream)) }
{
    let queue = Vec::new(alloc);
    queues.insert(stream, queue)?;
    Ok(())
}

/// Begins the queue of a stream if it has none.
pub fn begin_parts(
    alloc: Global,
    queues: &mut BTreeMap<u16, Vec<Partial>>,
    stream: u16,
) -> Result<(), AllocError>
    requires { SoundQueues vec_items stream_of_part queues.old }
    ensures same { all_queued vec_items queues.new.entries ≡ all_queued vec_items queues.old.entries }
    ensures sound { SoundQueues vec_items stream_of_part queues.new }
    ensures there { OnOk result (IsSome (get nat_cmp queues.new stream)) }
{
    if queues.contains_key(&stream) {
        return Ok(());
    }
    begin(alloc, queues, stream)
}

/// Keeps a piece with more to follow in the queue of its stream, which was begun.
pub fn add_piece(
    alloc: Global,
    queues: &mut BTreeMap<u16, Vec<Partial>>,
    item: ItemHeader,
    bytes: &[u8],
) -> Result<(), AllocError>
    requires sound { SoundQueues vec_items stream_of_part queues.old }
    requires there { IsSome (get nat_cmp queues.old item.stream) }
    ensures ok { OnOk result (all_queued vec_items queues.new.entries
        ≡ with_bytes item.stream item.generation bytes.now (all_queued vec_items queues.old.entries)) }
    ensures left { OnOk result (without_part item.stream item.generation (all_queued vec_items queues.new.entries)
        ≡ without_part item.stream item.generation (all_queued vec_items queues.old.entries)) }
    ensures err { OnErr result (all_queued vec_items queues.new.entries ≡ all_queued vec_items queues.old.entries) }
    ensures sound { SoundQueues vec_items stream_of_part queues.new }
{
    match queues.get_mut(&item.stream) {
        None => unreachable!(),
        Some(parts) => keep_more(alloc, parts, item, bytes),
    }
}

/// Takes out what was received of a message: its bytes, joined.
pub fn take_joined(
    alloc: Global,
    queues: &mut BTreeMap<u16, Vec<Partial>>,
    stream: u16,
    generation: u32,
) -> Bytes
    requires { SoundQueues vec_items stream_of_part queues.old }
    ensures bytes { result ≡ bytes_so_far stream generation (all_queued vec_items queues.old.entries) }
    ensures rest { all_queued vec_items queues.new.entries
        ≡ without_part stream generation (all_queued vec_items queues.old.entries) }
    ensures sound { SoundQueues vec_items stream_of_part queues.new }
{
    match queues.get_mut(&stream) {
        None => Bytes::new(Vec::new(alloc)),
        Some(parts) => take_part(alloc, parts, stream, generation),
    }
}

/// Drops what was received of a message.
pub fn drop_joined(queues: &mut BTreeMap<u16, Vec<Partial>>, stream: u16, generation: u32)
    requires { SoundQueues vec_items stream_of_part queues.old }
    ensures rest { all_queued vec_items queues.new.entries
        ≡ without_part stream generation (all_queued vec_items queues.old.entries) }
    ensures sound { SoundQueues vec_items stream_of_part queues.new }
{
    match queues.get_mut(&stream) {
        None => {}
        Some(parts) => drop_part(parts, stream, generation),
    }
}

/// Whether a stream has a queue that is empty.
fn has_no_parts(queues: &BTreeMap<u16, Vec<Partial>>, stream: u16) -> bool
    ensures { OnTrue result (IfSome (get nat_cmp queues.now stream) (λ queue. queue.items ≡ [])) }
{
    match queues.get(&stream) {
        None => false,
        Some(queue) => queue.is_empty(),
    }
}

/// Drops the queue of a stream if it is empty.
pub fn release_parts(queues: &mut BTreeMap<u16, Vec<Partial>>, stream: u16)
    requires { SoundQueues vec_items stream_of_part queues.old }
    ensures same { all_queued vec_items queues.new.entries ≡ all_queued vec_items queues.old.entries }
    ensures sound { SoundQueues vec_items stream_of_part queues.new }
{
    if has_no_parts(queues, stream) {
        queues.remove(&stream);
    }
}
