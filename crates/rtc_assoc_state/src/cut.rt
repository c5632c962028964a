//! Messages as items, and items as packets.
ghost use Rattle.std.specs.Prelude.{◌≡◌, ◌≤◌, ◌+◌, ◌^◌, length, IfOk, OnOk};
ghost use Rattle.std.specs.VecDeque.{deque_len};
ghost use Rattle.rtc_assoc_state.specs.Pieces.{pieces_of, packets_from, ReadBack};

use crate::{ItemPart, Outgoing, Packet};
use std::alloc::{AllocError, Global};
use std::collections::VecDeque;

/// The pieces of a message, of at most `size` bytes each.
pub fn cut_message(
    alloc: Global,
    size: usize,
    stream: u16,
    generation: u32,
    identifier: u32,
    bytes: &[u8],
) -> Result<VecDeque<Outgoing>, AllocError>
    requires least { 1 ≤ size }
    requires most { size ≤ 1872 }
    ensures items { IfOk result (λ items. items.items ≡ pieces_of size stream generation identifier bytes.now) }
    ensures count { IfOk result (λ items. deque_len items ≤ length bytes.now + 1) }
{
    let mut items = VecDeque::with_capacity(alloc, bytes.len() / size + 1)?;
    let mut rest = bytes;
    while rest.len() > size {
        let (front, behind) = rest.split_at(size);
        let item = Outgoing::piece(alloc, stream, generation, ItemPart::More, identifier, front)?;
        items.push_back(item)?;
        rest = behind;
    }
    let item = Outgoing::piece(alloc, stream, generation, ItemPart::Last, identifier, rest)?;
    items.push_back(item)?;
    Ok(items)
}

/// The packets of items that are numbered from `first`.
pub fn packets_of(
    alloc: Global,
    acknowledged: u64,
    first: u64,
    items: &VecDeque<Outgoing>,
) -> Result<VecDeque<Packet>, AllocError>
    requires { first + deque_len items.now ≤ 2 ^ 64 }
    ensures packets { IfOk result (λ packets. packets.items ≡ packets_from acknowledged first items.now.items) }
    ensures reads { OnOk result (ReadBack acknowledged first items.now.items) }
{
    let mut packets = VecDeque::with_capacity(alloc, items.len())?;
    for i in 0..items.len() {
        let packet = Packet::data(alloc, acknowledged, first + i as u64, &items[i])?;
        packets.push_back(packet)?;
    }
    Ok(packets)
}
