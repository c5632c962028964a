//! What the last tables of replies show.
ghost use Rattle.std.specs.Prelude.{◌≡◌, ◌<◌, ◌^◌, count_by};
ghost use Rattle.rtc_run_history.specs.Sides.{same_side};
ghost use Rattle.rtc_demo.specs.DemoCounts as spec;

use crate::table_counts::TableCounts;
use rtc_run_history::{Reply, Side, Step, Table};
use rtc_sdp_values::LineRow;

fn is_same_side(a: Side, b: Side) -> bool
    ensures { result ≡ same_side a b }
{
    a == b
}

fn is_stopped_row(row: &LineRow) -> bool
    ensures { result ≡ spec.is_stopped_row row.now }
{
    match row {
        LineRow::Media { stopped, .. } => *stopped,
        LineRow::App { .. } => false,
    }
}

fn count_stopped(rows: &[LineRow]) -> usize
    ensures { result ≡ count_by spec.is_stopped_row rows.now }
{
    rows.iter().filter(|row| is_stopped_row(row)).count()
}

fn counts_of(table: &Table) -> TableCounts
    ensures counts { result ≡ spec.counts_of table.now }
    ensures few { result.channels < 2 ^ 63 }
{
    TableCounts {
        lines: table.lines.len(),
        stopped: count_stopped(table.lines.as_slice()),
        channels: table.channels.as_slice().len(),
    }
}

fn counts_or(here: bool, table: &Option<Table>, earlier: TableCounts) -> TableCounts
    requires { earlier.channels < 2 ^ 63 }
    ensures counts { result ≡ spec.counts_or here table.now earlier }
    ensures few { result.channels < 2 ^ 63 }
{
    if !here {
        return earlier;
    }
    match table {
        Some(table) => counts_of(table),
        None => earlier,
    }
}

/// The counts of the last table that replies of a side show.
pub fn last_counts<E>(at: Side, steps: &[Step], replies: &[Reply<E>]) -> TableCounts
    ensures counts { result ≡ spec.last_counts at spec.no_rows steps.now replies.now }
    ensures few { result.channels < 2 ^ 63 }
{
    let mut counts = TableCounts {
        lines: 0,
        stopped: 0,
        channels: 0,
    };
    for (number, step) in steps.iter().enumerate() {
        if number >= replies.len() {
            return counts;
        }
        counts = counts_or(
            is_same_side(step.side(), at),
            &replies[number].table,
            counts,
        );
    }
    counts
}
