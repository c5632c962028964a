//! What several calls do with queues and streams.
ghost use Rattle.std.specs.Prelude.{◌≡◌, ◌≤◌, ◌<◌, ◌+◌, ◌∷◌, [], ◌++◌, ℕ, IfOk, OnOk, OnErr, Some};
ghost use Rattle.std.specs.Prelude.{if◌then◌else◌, ◌==◌, vec_len, vec_capacity};
ghost use Rattle.std.specs.VecDeque.{deque_len, deque_capacity};
ghost use Rattle.rtc_parts.specs.declared.assoc_event.AssocEvent.TheVariants.{Finished};
ghost use Rattle.rtc_assoc_state.specs.declared.frame.Frame.TheVariants.{Data, Acknowledgement};
ghost use Rattle.rtc_assoc_state.specs.Packets.{frame_in, data_bytes, acknowledgement_bytes};
ghost use Rattle.rtc_assoc_state.specs.Pieces.{close_of};
ghost use Rattle.rtc_assoc_state.specs.Amounts.{amount_of};
ghost use Rattle.rtc_assoc_state.specs.Inbox.{without_part, without_messages};
ghost use Rattle.rtc_assoc_state.specs.StreamTable.{SoundTable, HasPlaceRoom};

use rtc_assoc_state::{
    Outgoing, Packet, Parts, StreamRow, StreamTable, Unread, append_all, enqueue, raise,
};
use rtc_parts::AssocEvent;
use std::alloc::{AllocError, Global};
use std::collections::{BTreeMap, VecDeque};

/// Makes room for what an item adds at most: two events, the row of its stream, two packets. Gives its acknowledgement.
pub(crate) fn make_ready(
    alloc: Global,
    number: u64,
    streams: &mut StreamTable,
    id: u16,
    events: &mut VecDeque<AssocEvent>,
    packets: &mut VecDeque<Packet>,
) -> Result<Packet, AllocError>
    requires { SoundTable streams.old.rows.items streams.old.places streams.old.at_last }
    ensures bytes { IfOk result (λ answer. answer ≡ acknowledgement_bytes number) }
    ensures reads { OnOk result (frame_in (acknowledgement_bytes number) ≡ Some (Acknowledgement number)) }
    ensures rows { streams.new.rows.items
        ≡ streams.old.rows.items }
    ensures sound { SoundTable streams.new.rows.items streams.new.places streams.new.at_last }
    ensures row { OnOk result (vec_len streams.new.rows < vec_capacity streams.new.rows) }
    ensures place { OnOk result
        (HasPlaceRoom id streams.new.places) }
    ensures events { events.new.items ≡ events.old.items }
    ensures event_room { OnOk result (deque_len events.new + 2 ≤ deque_capacity events.new) }
    ensures packets { packets.new.items ≡ packets.old.items }
    ensures packet_room { OnOk result (deque_len packets.new + 2 ≤ deque_capacity packets.new) }
{
    events.reserve(2)?;
    streams.make_room(id)?;
    packets.reserve(2)?;
    Packet::acknowledgement(alloc, number)
}

/// Queues the close of a generation of a stream, with its packet.
pub(crate) fn queue_close(
    alloc: Global,
    acknowledged: u64,
    number: u64,
    id: u16,
    generation: u32,
    items: &mut VecDeque<Outgoing>,
    packets: &mut VecDeque<Packet>,
) -> Result<(), AllocError>
    ensures items { OnOk result (items.new.items ≡ items.old.items ++ close_of id generation ∷ []) }
    ensures count { OnOk result (deque_len items.new ≡ deque_len items.old + 1) }
    ensures packets { OnOk result (packets.new.items ≡ packets.old.items ++ data_bytes acknowledged number (close_of id generation) ∷ []) }
    ensures len { OnOk result (deque_len packets.new ≡ deque_len packets.old + 1) }
    ensures capacity { deque_capacity packets.old ≤ deque_capacity packets.new }
    ensures reads { OnOk result (frame_in (data_bytes acknowledged number (close_of id generation))
        ≡ Some (Data acknowledged number (close_of id generation))) }
    ensures same_items { OnErr result (items.new.items ≡ items.old.items) }
    ensures same_count { OnErr result (deque_len items.new ≡ deque_len items.old) }
    ensures same_packets { OnErr result (packets.new.items ≡ packets.old.items) }
{
    packets.reserve(1)?;
    items.reserve(1)?;
    let close = Outgoing::close(alloc, id, generation);
    let packet = Packet::data(alloc, acknowledged, number, &close)?;
    enqueue(items, close);
    enqueue(packets, packet);
    Ok(())
}

/// Makes room for so many items and packets, and adds to the bytes of a stream.
fn count_message(
    items: &mut VecDeque<Outgoing>,
    more: usize,
    packets: &mut VecDeque<Packet>,
    told: usize,
    amounts: &mut BTreeMap<u16, usize>,
    id: u16,
    length: usize,
) -> Result<(), AllocError>
    ensures items { items.new.items ≡ items.old.items }
    ensures count { deque_len items.new ≡ deque_len items.old }
    ensures item_room { OnOk result (deque_len items.new + more ≤ deque_capacity items.new) }
    ensures packets { packets.new.items ≡ packets.old.items }
    ensures packet_room { OnOk result (deque_len packets.new + told ≤ deque_capacity packets.new) }
    ensures amounts { OnOk result ((s : ℕ) → amount_of s amounts.new ≡ amount_of s amounts.old + (if id == s then length else 0)) }
    ensures same_amounts { OnErr result ((s : ℕ) → amount_of s amounts.new ≡ amount_of s amounts.old) }
{
    items.reserve(more)?;
    packets.reserve(told)?;
    raise(amounts, id, length)
}

/// Queues the items of a message of so many bytes, with their packets.
pub(crate) fn queue_message(
    items: &mut VecDeque<Outgoing>,
    packets: &mut VecDeque<Packet>,
    amounts: &mut BTreeMap<u16, usize>,
    id: u16,
    length: usize,
    pieces: VecDeque<Outgoing>,
    told: VecDeque<Packet>,
) -> Result<(), AllocError>
    ensures items { OnOk result (items.new.items ≡ items.old.items ++ pieces.items) }
    ensures count { OnOk result (deque_len items.new ≡ deque_len items.old + deque_len pieces) }
    ensures packets { OnOk result (packets.new.items ≡ packets.old.items ++ told.items) }
    ensures amounts { OnOk result ((s : ℕ) → amount_of s amounts.new ≡ amount_of s amounts.old + (if id == s then length else 0)) }
    ensures same_items { OnErr result (items.new.items ≡ items.old.items) }
    ensures same_count { OnErr result (deque_len items.new ≡ deque_len items.old) }
    ensures same_packets { OnErr result (packets.new.items ≡ packets.old.items) }
    ensures same_amounts { OnErr result ((s : ℕ) → amount_of s amounts.new ≡ amount_of s amounts.old) }
{
    count_message(
        items,
        pieces.len(),
        packets,
        told.len(),
        amounts,
        id,
        length,
    )?;
    append_all(items, pieces);
    append_all(packets, told);
    Ok(())
}

/// Reports that the generation of a row is finished, in room that was made, and drops what was received of it.
pub(crate) fn finish(
    events: &mut VecDeque<AssocEvent>,
    unread: &mut Unread,
    parts: &mut Parts,
    row: StreamRow,
)
    requires { deque_len events.old < deque_capacity events.old }
    ensures events { events.new.items ≡ events.old.items ++ Finished row.stream ∷ [] }
    ensures len { deque_len events.new ≡ deque_len events.old + 1 }
    ensures capacity { deque_capacity events.old ≤ deque_capacity events.new }
    ensures parts { parts.new ≡ without_part row.stream row.generation parts.old }
    ensures unread { unread.new ≡ without_messages row.stream row.generation unread.old }
{
    enqueue(events, AssocEvent::Finished(row.stream));
    unread.forget(parts, row.stream, row.generation);
}

/// Queues packets, and then others.
pub(crate) fn queue_both(
    packets: &mut VecDeque<Packet>,
    mut first: VecDeque<Packet>,
    mut second: VecDeque<Packet>,
) -> Result<(), AllocError>
    ensures ok { OnOk result (packets.new.items ≡ packets.old.items ++ (first.items ++ second.items)) }
    ensures err { OnErr result (packets.new.items ≡ packets.old.items) }
{
    first.append(&mut second)?;
    packets.append(&mut first)
}
