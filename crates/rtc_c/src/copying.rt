//! Texts, bytes and rows, as copies for the caller.
ghost use Rattle.std.specs.Prelude.{◌≡◌};
ghost use Rattle.rtc_c_handle.specs.Calls.{CopiesBytes, CopiesChannelOf, CopiesLineOf, CopiesStatus};
ghost use Rattle.rtc_c_handle.specs.Outputs.{bytes_kept};
ghost use Rattle.rtc_c_handle.specs.StatusTexts.{status_name, status_text};
ghost use Rattle.rtc_c_handle.specs.Statuses.{code_of, status_of_number};
ghost use Rattle.rtc_c_handle.specs.declared.status.Status.{Status};

use rtc_c_handle::{
    ChannelEntry, LineEntry, Slot, copy_channel, copy_line, copy_output, copy_status_name,
    copy_status_text, copy_text,
};
use std::alloc::Global;

/// Copies the text that is to be sent into a buffer, and counts its bytes.
#[unsafe(no_mangle)]
pub extern "C" fn gondyru_copy_text(
    alloc: Global,
    slot: &mut Slot,
    out: &mut [u8],
    size: &mut usize,
) -> u32
    ensures kept { slot.new.handle.value ≡ slot.old.handle.value }
    ensures copied { (status : Status) × (result ≡ code_of status)
        × CopiesBytes (λ held. held.text) slot.old.handle.value status out.old size.old out.new size.new }
{
    copy_text(alloc, slot, out, size).code()
}

/// Copies the bytes of the last output into a buffer, and counts them.
#[unsafe(no_mangle)]
pub extern "C" fn gondyru_copy_output(
    alloc: Global,
    slot: &mut Slot,
    out: &mut [u8],
    size: &mut usize,
) -> u32
    ensures kept { slot.new.handle.value ≡ slot.old.handle.value }
    ensures copied { (status : Status) × (result ≡ code_of status)
        × CopiesBytes (λ held. bytes_kept held.output) slot.old.handle.value status out.old size.old out.new size.new }
{
    copy_output(alloc, slot, out, size).code()
}

/// Copies the row of the m-line of a number, from 0, and its mid into a buffer.
#[unsafe(no_mangle)]
pub extern "C" fn gondyru_copy_line(
    alloc: Global,
    slot: &mut Slot,
    number: usize,
    row: &mut LineEntry,
    out: &mut [u8],
    size: &mut usize,
) -> u32
    ensures kept { slot.new.handle.value ≡ slot.old.handle.value }
    ensures copied { (status : Status) × (result ≡ code_of status)
        × CopiesLineOf number slot.old.handle.value status row.old row.new out.old out.new size.old size.new }
{
    copy_line(alloc, slot, number, row, out, size).code()
}

/// Copies the row of the data channel of a number, from 0, in order of their ids.
#[unsafe(no_mangle)]
pub extern "C" fn gondyru_copy_channel(
    alloc: Global,
    slot: &mut Slot,
    number: usize,
    row: &mut ChannelEntry,
) -> u32
    ensures kept { slot.new.handle.value ≡ slot.old.handle.value }
    ensures copied { (status : Status) × (result ≡ code_of status)
        × CopiesChannelOf number slot.old.handle.value status row.old row.new }
{
    copy_channel(alloc, slot, number, row).code()
}

/// Copies the name of the status of a number into a buffer.
#[unsafe(no_mangle)]
pub extern "C" fn gondyru_copy_status_name(number: u32, out: &mut [u8], size: &mut usize) -> u32
    ensures { (status : Status) × (result ≡ code_of status)
        × CopiesStatus status_name (status_of_number number) status out.old out.new size.old size.new }
{
    copy_status_name(number, out, size).code()
}

/// Copies the sentence about the status of a number into a buffer.
#[unsafe(no_mangle)]
pub extern "C" fn gondyru_copy_status_text(number: u32, out: &mut [u8], size: &mut usize) -> u32
    ensures { (status : Status) × (result ≡ code_of status)
        × CopiesStatus status_text (status_of_number number) status out.old out.new size.old size.new }
{
    copy_status_text(number, out, size).code()
}
