//! Rows of m-lines as C has them.
ghost use Rattle.std.specs.Prelude.{◌≡◌};
ghost use Rattle.rtc_c_handle.specs.Rows.{line_entry};

use crate::numbers::{number_of_direction, number_of_kind};
use rtc::LineRow;

/// What a peer has of an m-line.
#[repr(C)]
#[derive(Clone, Copy, Debug, PartialEq, Eq)]
pub struct LineEntry {
    /// Its number among the m-lines, from 0.
    pub place: u32,
    /// The kind of media: audio is 0, video 1.
    pub media: u32,
    /// The direction, from 0: both ways, sending, receiving, inactive.
    pub direction: u32,
    /// Whether it is the line of the data channels, of which the other numbers mean nothing.
    pub channels: bool,
    /// Whether it is stopped for good.
    pub stopped: bool,
    /// Whether the other side added it.
    pub remote_created: bool,
}

impl LineEntry {
    // The entry of a row.
    pub(crate) fn of_row(row: &LineRow) -> LineEntry
        ensures { result ≡ line_entry row.now }
    {
        match row {
            LineRow::Media {
                place,
                mid: _,
                kind,
                dir,
                stopped,
                remote_created,
            } => LineEntry {
                place: *place,
                media: number_of_kind(*kind),
                direction: number_of_direction(*dir),
                channels: false,
                stopped: *stopped,
                remote_created: *remote_created,
            },
            LineRow::App { place, mid: _ } => LineEntry {
                place: *place,
                media: 0,
                direction: 0,
                channels: true,
                stopped: false,
                remote_created: false,
            },
        }
    }
}
