//! Bytes and rows of the peer of a slot, and texts of statuses, as copies for C.
ghost use Rattle.std.specs.Prelude.{◌≡◌, length, slice_get};
ghost use Rattle.std.specs.Option.{option_copied};
ghost use Rattle.rtc_assoc_state.specs.PlainMeaning.{plain_meaning};
ghost use Rattle.rtc_peer_core.specs.ChannelRows.{channel_rows};
ghost use Rattle.rtc_c_handle.specs.Calls.{Puts, CopiesBytes, CopiesChannel, CopiesChannelOf, CopiesLine, CopiesLineOf};
ghost use Rattle.rtc_c_handle.specs.Calls.{CopiesStatus};
ghost use Rattle.rtc_c_handle.specs.Outputs.{bytes_kept};
ghost use Rattle.rtc_c_handle.specs.StatusTexts.{status_name, status_text};
ghost use Rattle.rtc_c_handle.specs.Statuses.{status_of_number};

use crate::{ChannelEntry, Held, LineEntry, Slot, Status};
use rtc::LineRow;
use std::alloc::Global;

// Copies bytes to the start of a buffer, and counts them.
fn put(bytes: &[u8], out: &mut [u8], size: &mut usize) -> Status
    ensures size { size.new ≡ length bytes.now }
    ensures puts { Puts bytes.now out.old result out.new }
{
    *size = bytes.len();
    if out.len() < bytes.len() {
        return Status::SmallBuffer;
    }
    let (start, _rest) = out.split_at_mut(bytes.len());
    start.copy_from_slice(bytes);
    Status::Done
}

/// Copies the text that is to be sent into a buffer, and counts its bytes. The peer keeps it.
pub fn copy_text(alloc: Global, slot: &mut Slot, out: &mut [u8], size: &mut usize) -> Status
    ensures kept { slot.new.handle.value ≡ slot.old.handle.value }
    ensures copied { CopiesBytes (λ held. held.text) slot.old.handle.value result out.old size.old out.new size.new }
{
    match slot.take(alloc) {
        None => Status::NoPeer,
        Some(held) => {
            let status = put(held.text.as_str().as_bytes(), out, size);
            *slot = Slot::of_box(held);
            status
        }
    }
}

/// Copies the bytes of the last output into a buffer, and counts them. The peer keeps them.
pub fn copy_output(alloc: Global, slot: &mut Slot, out: &mut [u8], size: &mut usize) -> Status
    ensures kept { slot.new.handle.value ≡ slot.old.handle.value }
    ensures copied { CopiesBytes (λ held. bytes_kept held.output) slot.old.handle.value result out.old size.old out.new size.new }
{
    match slot.take(alloc) {
        None => Status::NoPeer,
        Some(held) => {
            let status = put(held.output.as_slice(), out, size);
            *slot = Slot::of_box(held);
            status
        }
    }
}

fn copy_row(line: Option<&LineRow>, row: &mut LineEntry, out: &mut [u8], size: &mut usize) -> Status
    ensures { CopiesLine (option_copied line.entry) result row.old row.new out.old out.new size.old size.new }
{
    match line {
        None => Status::NoRow,
        Some(line) => {
            *row = LineEntry::of_row(line);
            let mid = line.mid();
            put(mid.as_str().as_bytes(), out, size)
        }
    }
}

/// Copies the row of the m-line of a number, from 0, and its mid into a buffer.
pub fn copy_line(
    alloc: Global,
    slot: &mut Slot,
    number: usize,
    row: &mut LineEntry,
    out: &mut [u8],
    size: &mut usize,
) -> Status
    ensures kept { slot.new.handle.value ≡ slot.old.handle.value }
    ensures copied { CopiesLineOf number slot.old.handle.value result row.old row.new out.old out.new size.old size.new }
{
    match slot.take(alloc) {
        None => Status::NoPeer,
        Some(held) => {
            let status = copy_row(held.rtc.lines().rows().get(number), row, out, size);
            *slot = Slot::of_box(held);
            status
        }
    }
}

impl Held {
    // Copies the row of the channel of a number.
    fn copy_channel(&self, number: usize, row: &mut ChannelEntry) -> Status
        ensures { CopiesChannel (slice_get (channel_rows plain_meaning self.now.rtc.core.sctp self.now.rtc.core.channels) number)
            result row.old row.new }
    {
        match self.rtc.channel_row(number) {
            Some(channel) => {
                *row = ChannelEntry::of_row(&channel);
                Status::Done
            }
            None => Status::NoRow,
        }
    }
}

/// Copies the row of the data channel of a number, from 0, in order of their ids.
pub fn copy_channel(alloc: Global, slot: &mut Slot, number: usize, row: &mut ChannelEntry) -> Status
    ensures kept { slot.new.handle.value ≡ slot.old.handle.value }
    ensures copied { CopiesChannelOf number slot.old.handle.value result row.old row.new }
{
    match slot.take(alloc) {
        None => Status::NoPeer,
        Some(held) => {
            let status = held.copy_channel(number, row);
            *slot = Slot::of_box(held);
            status
        }
    }
}

/// Copies the name of the status of a number into a buffer.
pub fn copy_status_name(number: u32, out: &mut [u8], size: &mut usize) -> Status
    ensures { CopiesStatus status_name (status_of_number number) result out.old out.new size.old size.new }
{
    match Status::of_number(number) {
        Some(status) => put(status.name().as_bytes(), out, size),
        None => Status::BadNumber,
    }
}

/// Copies the sentence about the status of a number into a buffer.
pub fn copy_status_text(number: u32, out: &mut [u8], size: &mut usize) -> Status
    ensures { CopiesStatus status_text (status_of_number number) result out.old out.new size.old size.new }
{
    match Status::of_number(number) {
        Some(status) => put(status.text().as_bytes(), out, size),
        None => Status::BadNumber,
    }
}
