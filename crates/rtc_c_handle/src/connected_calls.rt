//! Calls on the peer of a slot that reach its connection.
ghost use Rattle.std.specs.Prelude.{◌≡◌};
ghost use Rattle.rtc_c_handle.specs.Calls.{OnPeer, OnPeerWithRow};
ghost use Rattle.rtc_c_handle.specs.Transport.{BeginsClose, ClosesHeldChannel, HearsDatagram, HearsMoment, PollsRow, WritesHeld};

use crate::{Address, OutputRow, Slot, Status};
use std::alloc::Global;

/// Gives the peer a moment, in nanoseconds since a start that the caller chooses.
pub fn handle_timeout(alloc: Global, slot: &mut Slot, now: u64) -> Status
    ensures { OnPeer (λ h status g. HearsMoment now h status g) slot.old.handle.value result slot.new.handle.value }
{
    match slot.take(alloc) {
        None => Status::NoPeer,
        Some(mut held) => {
            let status = held.handle_timeout(now);
            *slot = Slot::of_box(held);
            status
        }
    }
}

/// Gives the peer a datagram that was received by UDP at a moment, with its addresses as the other side sent it.
pub fn handle_receive(
    alloc: Global,
    slot: &mut Slot,
    now: u64,
    source: &Address,
    destination: &Address,
    bytes: &[u8],
) -> Status
    ensures { OnPeer (λ h status g. HearsDatagram now source.now destination.now bytes.now h status g)
        slot.old.handle.value result slot.new.handle.value }
{
    match slot.take(alloc) {
        None => Status::NoPeer,
        Some(mut held) => {
            let status = held.handle_receive(now, source, destination, bytes);
            *slot = Slot::of_box(held);
            status
        }
    }
}

/// Polls the peer, and fills the row of what it returned. Its bytes are kept until the next poll.
pub fn poll_output(alloc: Global, slot: &mut Slot, row: &mut OutputRow) -> Status
    ensures { OnPeerWithRow OutputRow row.old (λ h status g after. PollsRow h row.old status g after)
        slot.old.handle.value result slot.new.handle.value row.new }
{
    match slot.take(alloc) {
        None => Status::NoPeer,
        Some(mut held) => {
            let status = held.poll_output(row);
            *slot = Slot::of_box(held);
            status
        }
    }
}

/// Writes a message, text or binary, to a channel that is open.
pub fn write(alloc: Global, slot: &mut Slot, channel: u64, binary: bool, bytes: &[u8]) -> Status
    ensures { OnPeer (λ h status g. WritesHeld channel binary bytes.now h status g) slot.old.handle.value result slot.new.handle.value }
{
    match slot.take(alloc) {
        None => Status::NoPeer,
        Some(mut held) => {
            let status = held.write(channel, binary, bytes);
            *slot = Slot::of_box(held);
            status
        }
    }
}

/// Closes a channel.
pub fn close_channel(alloc: Global, slot: &mut Slot, channel: u64) -> Status
    ensures { OnPeer (λ h status g. ClosesHeldChannel channel h status g) slot.old.handle.value result slot.new.handle.value }
{
    match slot.take(alloc) {
        None => Status::NoPeer,
        Some(mut held) => {
            let status = held.close_channel(channel);
            *slot = Slot::of_box(held);
            status
        }
    }
}

/// Begins to close the peer, which polls end.
pub fn close(alloc: Global, slot: &mut Slot) -> Status
    ensures { OnPeer BeginsClose slot.old.handle.value result slot.new.handle.value }
{
    match slot.take(alloc) {
        None => Status::NoPeer,
        Some(mut held) => {
            let status = held.close();
            *slot = Slot::of_box(held);
            status
        }
    }
}
