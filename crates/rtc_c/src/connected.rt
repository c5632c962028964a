//! Moments, datagrams, polls, messages and closes.
ghost use Rattle.std.specs.Prelude.{◌≡◌};
ghost use Rattle.rtc_c_handle.specs.Calls.{OnPeer, OnPeerWithRow};
ghost use Rattle.rtc_c_handle.specs.Transport.{BeginsClose, ClosesHeldChannel, HearsDatagram, HearsMoment, PollsRow, WritesHeld};
ghost use Rattle.rtc_c_handle.specs.Statuses.{code_of};
ghost use Rattle.rtc_c_handle.specs.declared.status.Status.{Status};

use rtc_c_handle::{
    Address, OutputRow, Slot, close, close_channel, handle_receive, handle_timeout, poll_output,
    write,
};
use std::alloc::Global;

/// Gives the peer a moment, in nanoseconds since a start that the caller chooses.
#[unsafe(no_mangle)]
pub extern "C" fn gondyru_handle_timeout(alloc: Global, slot: &mut Slot, now: u64) -> u32
    ensures { (status : Status) × (result ≡ code_of status)
        × OnPeer (λ h returned g. HearsMoment now h returned g) slot.old.handle.value status slot.new.handle.value }
{
    handle_timeout(alloc, slot, now).code()
}

/// Gives the peer a datagram that was received by UDP at a moment, with its addresses as the other side sent it.
#[unsafe(no_mangle)]
pub extern "C" fn gondyru_handle_receive(
    alloc: Global,
    slot: &mut Slot,
    now: u64,
    source: &Address,
    destination: &Address,
    bytes: &[u8],
) -> u32
    ensures { (status : Status) × (result ≡ code_of status)
        × OnPeer (λ h returned g. HearsDatagram now source.now destination.now bytes.now h returned g)
        slot.old.handle.value status slot.new.handle.value }
{
    handle_receive(alloc, slot, now, source, destination, bytes).code()
}

/// Polls the peer, and fills the row of what it returned. Its bytes are kept until the next poll.
#[unsafe(no_mangle)]
pub extern "C" fn gondyru_poll_output(alloc: Global, slot: &mut Slot, row: &mut OutputRow) -> u32
    ensures { (status : Status) × (result ≡ code_of status)
        × OnPeerWithRow OutputRow row.old (λ h returned g after. PollsRow h row.old returned g after)
        slot.old.handle.value status slot.new.handle.value row.new }
{
    poll_output(alloc, slot, row).code()
}

/// Writes a message, text or binary, to a channel that is open.
#[unsafe(no_mangle)]
pub extern "C" fn gondyru_write(
    alloc: Global,
    slot: &mut Slot,
    channel: u64,
    binary: bool,
    bytes: &[u8],
) -> u32
    ensures { (status : Status) × (result ≡ code_of status)
        × OnPeer (λ h returned g. WritesHeld channel binary bytes.now h returned g) slot.old.handle.value status slot.new.handle.value }
{
    write(alloc, slot, channel, binary, bytes).code()
}

/// Closes a channel.
#[unsafe(no_mangle)]
pub extern "C" fn gondyru_close_channel(alloc: Global, slot: &mut Slot, channel: u64) -> u32
    ensures { (status : Status) × (result ≡ code_of status)
        × OnPeer (λ h returned g. ClosesHeldChannel channel h returned g) slot.old.handle.value status slot.new.handle.value }
{
    close_channel(alloc, slot, channel).code()
}

/// Begins to close the peer, which polls end.
#[unsafe(no_mangle)]
pub extern "C" fn gondyru_close(alloc: Global, slot: &mut Slot) -> u32
    ensures { (status : Status) × (result ≡ code_of status)
        × OnPeer BeginsClose slot.old.handle.value status slot.new.handle.value }
{
    close(alloc, slot).code()
}
