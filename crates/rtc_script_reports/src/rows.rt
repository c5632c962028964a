//! Lines of rows.
ghost use Rattle.std.specs.Prelude.{◌≡◌, ◌++◌, OnOk, string_bytes};
ghost use Rattle.std.specs.List.{AllByRecursion};
ghost use Rattle.rtc_script_reports.specs.Fits.{FitsRow};
ghost use Rattle.rtc_script_reports.specs.Rows.{row_report_line, row_lines};

use crate::pushing::{push_named, push_word};
use crate::words::{direction_word, kind_word};
use rtc_sdp_values::LineRow;
use std::alloc::AllocError;

fn push_row(out: &mut String, row: &LineRow) -> Result<(), AllocError>
    ensures text { OnOk result (string_bytes out.new ≡ string_bytes out.old ++ row_report_line row.now) }
    ensures fit { OnOk result (FitsRow row.now) }
{
    match row {
        LineRow::Media {
            place,
            mid,
            kind,
            dir,
            stopped,
            remote_created,
        } => {
            push_named(out, "line ", u64::from(*place))?;
            push_word(out, mid.as_str())?;
            push_word(out, kind_word(*kind))?;
            push_word(out, direction_word(*dir))?;
            out.push_str(if *stopped { " stopped" } else { " live" })?;
            out.push_str(if *remote_created {
                " remote\n"
            } else {
                " local\n"
            })
        }
        LineRow::App { place, mid } => {
            push_named(out, "line ", u64::from(*place))?;
            push_word(out, mid.as_str())?;
            out.push_str(" app\n")
        }
    }
}

/// Puts the lines of rows behind a text.
pub fn push_rows(out: &mut String, rows: &[LineRow]) -> Result<(), AllocError>
    ensures text { OnOk result (string_bytes out.new ≡ string_bytes out.old ++ row_lines rows.now) }
    ensures fit { OnOk result (AllByRecursion FitsRow rows.now) }
{
    for row in rows {
        push_row(out, row)?;
    }
    Ok(())
}
