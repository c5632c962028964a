//! Rows of a peer's table.
ghost use Rattle.std.specs.Prelude.{◌≡◌};
ghost use Rattle.rtc_sdp_values.specs.LineRow.{row_place, row_mid};

use crate::{Direction, MediaKind, Mid};
use rtc_wire::TryCopy;
use std::alloc::AllocError;

/// What a peer holds of one m-line.
#[derive(Clone, Copy, Debug, PartialEq, Eq)]
pub enum LineRow {
    Media {
        /// Its number among the m-lines, from 0.
        place: u32,
        mid: Mid,
        kind: MediaKind,
        dir: Direction,
        /// For good: a stopped line remains inactive.
        stopped: bool,
        /// It was received in an offer of the other side.
        remote_created: bool,
    },
    /// The m-line of data channels.
    App {
        place: u32,
        mid: Mid,
    },
}

impl LineRow {
    pub fn place(&self) -> u32
        ensures { result ≡ row_place self.now }
    {
        match self {
            LineRow::Media { place, .. } => *place,
            LineRow::App { place, .. } => *place,
        }
    }

    pub fn mid(&self) -> Mid
        ensures { result ≡ row_mid self.now }
    {
        match self {
            LineRow::Media { mid, .. } => *mid,
            LineRow::App { mid, .. } => *mid,
        }
    }
}

impl TryCopy for LineRow {
    fn copy(&self) -> Result<LineRow, AllocError> {
        Ok(*self)
    }
}
