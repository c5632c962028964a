//! Lines of channels.
ghost use Rattle.std.specs.Prelude.{◌≡◌, ◌++◌, OnOk, string_bytes};
ghost use Rattle.std.specs.List.{AllByRecursion};
ghost use Rattle.rtc_script_reports.specs.Fits.{FitsChannel, FitsStream};
ghost use Rattle.rtc_script_reports.specs.Rows.{stream_text, channel_report_line, channel_lines};

use crate::pushing::{push_named, push_number};
use rtc_channels::ChannelRow;
use std::alloc::AllocError;

fn push_stream(out: &mut String, stream: Option<u16>) -> Result<(), AllocError>
    ensures text { OnOk result (string_bytes out.new ≡ string_bytes out.old ++ stream_text stream) }
    ensures fit { FitsStream stream }
{
    match stream {
        None => out.push_str("-"),
        Some(stream) => push_number(out, u64::from(stream)),
    }
}

fn push_channel(out: &mut String, row: &ChannelRow) -> Result<(), AllocError>
    ensures text { OnOk result (string_bytes out.new ≡ string_bytes out.old ++ channel_report_line row.now) }
    ensures fit { OnOk result (FitsChannel row.now) }
{
    push_named(out, "channel ", row.id.number())?;
    out.push_str(" ")?;
    push_stream(out, row.stream)?;
    push_named(out, " ", row.generation)?;
    out.push_str(if row.is_open { " open\n" } else { " waiting\n" })
}

/// Puts the lines of channels behind a text.
pub fn push_channels(out: &mut String, rows: &[ChannelRow]) -> Result<(), AllocError>
    ensures text { OnOk result (string_bytes out.new ≡ string_bytes out.old ++ channel_lines rows.now) }
    ensures fit { OnOk result (AllByRecursion FitsChannel rows.now) }
{
    for row in rows {
        push_channel(out, row)?;
    }
    Ok(())
}
