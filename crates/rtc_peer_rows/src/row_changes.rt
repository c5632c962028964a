//! Rows whose direction is set, or that are stopped.
ghost use Rattle.std.specs.Prelude.{◌≡◌, Option, Some, None, is_some};
ghost use Rattle.rtc_peer_rows.specs.RowChanges.{directed_row, stopped_row, restored_row};

use rtc_sdp_values::{Direction, LineRow};

/// The row with direction `to`; None if it is stopped, already has it, or carries no media.
pub fn direct_row(row: &LineRow, to: Direction) -> Option<LineRow>
    ensures { result ≡ directed_row to row.now }
{
    match row {
        LineRow::Media {
            place,
            mid,
            kind,
            dir,
            stopped,
            remote_created,
        } => {
            if *stopped || dir.is_same(to) {
                None
            } else {
                Some(LineRow::Media {
                    place: *place,
                    mid: *mid,
                    kind: *kind,
                    dir: to,
                    stopped: false,
                    remote_created: *remote_created,
                })
            }
        }
        LineRow::App { .. } => None,
    }
}

/// The row stopped for good; None if it is stopped already, or carries no media.
pub fn stop_row(row: &LineRow) -> Option<LineRow>
    ensures { result ≡ stopped_row row.now }
{
    match row {
        LineRow::Media {
            place,
            mid,
            kind,
            stopped,
            remote_created,
            ..
        } => {
            if *stopped {
                None
            } else {
                Some(LineRow::Media {
                    place: *place,
                    mid: *mid,
                    kind: *kind,
                    dir: Direction::Inactive,
                    stopped: true,
                    remote_created: *remote_created,
                })
            }
        }
        LineRow::App { .. } => None,
    }
}

/// The media row with a direction and a mark of being stopped; None if it carries no media.
pub fn restore_row(row: &LineRow, to: Direction, mark: bool) -> Option<LineRow>
    ensures { result ≡ restored_row to mark row.now }
{
    match row {
        LineRow::Media {
            place,
            mid,
            kind,
            remote_created,
            ..
        } => Some(LineRow::Media {
            place: *place,
            mid: *mid,
            kind: *kind,
            dir: to,
            stopped: mark,
            remote_created: *remote_created,
        }),
        LineRow::App { .. } => None,
    }
}
