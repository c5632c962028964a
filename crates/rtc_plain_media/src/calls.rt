//! What the calls of the part queue and make ready.
ghost use Rattle.std.specs.Prelude.{◌≡◌, ◌≤◌, ◌<◌, ◌+◌, ◌^◌, ◌++◌, ◌∷◌, [], length, IfOk, OnOk, OnErr};
ghost use Rattle.std.specs.VecDeque.{deque_len, deque_capacity};
ghost use Rattle.indexmap.specs.IndexMap.{spare};
ghost use Rattle.rtc_parts.specs.declared.raw_packet.RawPacket.TheVariants.{RtpRx, RtcpRx};
ghost use Rattle.rtc_plain_media.specs.Feedback.{datagram_of};
ghost use Rattle.rtc_plain_media.specs.MediaCalls.{if_raw};
ghost use Rattle.rtc_plain_media.specs.SourceCounts.{updates_numbers};

use crate::PlainMediaEvent;
use crate::datagram::datagram;
use crate::event_queue::make_room;
use crate::lines::Lines;
use crate::source_counts::{self, SourceCounts, numbers_in};
use rtc_parts::{MediaUpdate, RawPacket};
use rtc_wire::{Bytes, DatagramSend, TryCopy};
use std::alloc::{AllocError, Global};
use std::collections::VecDeque;

/// A copy of each update, in order.
pub fn copy_updates(
    alloc: Global,
    updates: &[MediaUpdate],
) -> Result<VecDeque<MediaUpdate>, AllocError>
    ensures { IfOk result (λ copies. copies.items ≡ updates.now) }
{
    let mut copies = VecDeque::new(alloc);
    for update in updates {
        let copied = update.copy()?;
        copies.push_back(copied)?;
    }
    Ok(copies)
}

/// Makes room for the lines, the SSRCs and the events of some updates, beside so many events for which room is kept.
/// Returns how many SSRCs the updates so far, which could have so many at most, can have with them.
pub fn make_ready(
    lines: &mut Lines,
    counts: &mut SourceCounts,
    events: &mut VecDeque<PlainMediaEvent>,
    kept: usize,
    most: usize,
    updates: &[MediaUpdate],
) -> Result<usize, AllocError>
    ensures lines { lines.new.entries ≡ lines.old.entries }
    ensures counts { counts.new.entries ≡ counts.old.entries }
    ensures events { events.new.items ≡ events.old.items }
    ensures len { deque_len events.new ≡ deque_len events.old }
    ensures lines_spare { spare lines.old ≤ spare lines.new }
    ensures counts_spare { spare counts.old ≤ spare counts.new }
    ensures capacity { deque_capacity events.old ≤ deque_capacity events.new }
    ensures lines_room { OnOk result (length updates.now ≤ spare lines.new) }
    ensures counts_room { OnOk result (updates_numbers updates.now ≤ spare counts.new) }
    ensures events_room { OnOk result (deque_len events.new + kept + length updates.now ≤ deque_capacity events.new) }
    ensures most { IfOk result (λ more. more ≡ most + updates_numbers updates.now) }
    ensures fits { IfOk result (λ more. more < 2 ^ 64) }
{
    let count = updates.len();
    let coming = numbers_in(updates)?;
    let more = source_counts::add(most, coming)?;
    counts.reserve(coming)?;
    lines.reserve(count)?;
    make_room(events, kept, count)?;
    Ok(more)
}

/// A copy of a packet.
fn copied(alloc: Global, packet: &[u8]) -> Result<Bytes, AllocError>
    ensures { IfOk result (λ copied. copied ≡ packet.now) }
{
    let bytes = Vec::from_slice(alloc, packet)?;
    Ok(Bytes::new(bytes))
}

/// A copy of a received RTP packet, if raw packets are reported.
pub fn raw_rtp(
    alloc: Global,
    raw_packets: bool,
    packet: &[u8],
) -> Result<Option<RawPacket>, AllocError>
    ensures { IfOk result (λ raw. raw ≡ if_raw raw_packets (RtpRx packet.now)) }
{
    if !raw_packets {
        return Ok(None);
    }
    let bytes = copied(alloc, packet)?;
    Ok(Some(RawPacket::RtpRx(bytes)))
}

/// A copy of a received RTCP packet, if raw packets are reported.
pub fn raw_rtcp(
    alloc: Global,
    raw_packets: bool,
    packet: &[u8],
) -> Result<Option<RawPacket>, AllocError>
    ensures { IfOk result (λ raw. raw ≡ if_raw raw_packets (RtcpRx packet.now)) }
{
    if !raw_packets {
        return Ok(None);
    }
    let bytes = copied(alloc, packet)?;
    Ok(Some(RawPacket::RtcpRx(bytes)))
}

/// Queues a datagram of a type, with these bytes behind its header.
pub fn send(
    alloc: Global,
    datagrams: &mut VecDeque<DatagramSend>,
    packet_type: u8,
    payload: &[u8],
) -> Result<(), AllocError>
    ensures ok { OnOk result (datagrams.new.items ≡ datagrams.old.items ++ datagram_of packet_type payload.now ∷ []) }
    ensures err { OnErr result (datagrams.new.items ≡ datagrams.old.items) }
{
    let made = datagram(alloc, packet_type, payload)?;
    datagrams.push_back(made)?;
    Ok(())
}
