//! The rows of a peer.
ghost use Rattle.std.specs.Prelude.{◌≡◌, ◌<◌, ◌-◌, ◌^◌, [], length, OnOk, OnErr};
ghost use Rattle.std.specs.Prelude.{MatchOption, None, Some, is_some, option_map, IsTrue, IsFalse};
ghost use Rattle.std.specs.Option.{option_copied};
ghost use Rattle.rtc_sdp_values.specs.LineRow.{row_place, row_mid};
ghost use Rattle.rtc_sdp_values.specs.declared.direction.Direction.TheVariants.{Inactive};
ghost use Rattle.rtc_peer_rows.specs.RowChanges.{directed_row, stopped_row, restored_row, is_changed, changed_of};
ghost use Rattle.rtc_peer_rows.specs.DeclaredMedia.{Declares, media_place, rows_without};
ghost use Rattle.rtc_peer_rows.specs.Table.{IsTable, row_of, app_of, has_mid};

use crate::Plan;
use crate::judging::{find_app, find_media, has_row};
use crate::mid_index::{find_positions, find_served};
use crate::row_changes::{direct_row, restore_row, stop_row};
use rtc_sdp_values::{Direction, LineRow, MediaKind, Mid};
use std::alloc::{AllocError, Global};
use std::collections::BTreeMap;
use std::marker::Model;

// Up to this many rows, a search costs less than an index.
const FEW_ROWS: usize = 32;

// This many searches cost about as much as an index.
const FEW_WALKS: u8 = 8;

/// The rows of a peer, by place.
#[derive(Debug, Drop)]
pub struct Lines {
    rows: Vec<LineRow>,
    // The position of the row of each mid; None while rows are few or seldom searched.
    positions: Option<BTreeMap<Mid, usize>>,
    // How many searches there were since a row was added or removed.
    walks: u8,
}

impl Model for Lines {
    ghost use Rattle.std.specs.Prelude.{List};
    ghost use Rattle.rtc_sdp_values.specs.declared.line_row.LineRow.{LineRow};
    ghost use Rattle.rtc_peer_rows.specs.MidIndex.{IsServedTable};

    ghost Value = { List LineRow };

    ghost view = { λ lines. lines.rows.items };

    ghost invariant = { λ lines. IsServedTable lines.positions lines.rows.items };
}

// Two tables are equal if their rows are, whether or not one of them has an index.
impl PartialEq for Lines {
    ghost use Rattle.std.specs.Cmp.Lexicographic.{pointwise, lists_per};
    ghost use Rattle.rtc_sdp_values.specs.contracts.line_row.LineRowPartialEq.TheImpl as row_eq;
    ghost use Rattle.rtc_sdp_values.specs.contracts.line_row.LineRowPartialEq.TheImpl.Laws as row_laws;

    ghost eq = { pointwise (row_eq.ghosts).eq };

    ghost laws = { lists_per row_laws.laws-law };

    fn eq(&self, other: &Lines) -> bool {
        self.rows.as_slice() == other.rows.as_slice()
    }
}

impl Eq for Lines {
    ghost use Rattle.std.specs.Cmp.Lexicographic.{lists_equiv};
    ghost use Rattle.rtc_sdp_values.specs.contracts.line_row.LineRowEq.TheImpl.Laws as row_laws;

    ghost laws = { lists_equiv row_laws.laws-law };
}

impl Lines {
    /// A table with no rows.
    pub fn new(alloc: Global) -> Lines
        ensures { result ≡ [] }
    {
        Lines {
            rows: Vec::new(alloc),
            positions: None,
            walks: 0,
        }
    }

    /// Prepares for look-ups by mid: rows that are searched often get an index, if there is memory for it.
    pub fn expect_look_up(&mut self)
        ensures { self.new ≡ self.old }
    {
        if self.positions.is_some() || self.rows.len() < FEW_ROWS {
            return;
        }
        if self.walks < FEW_WALKS {
            self.walks += 1;
            return;
        }
        let alloc = *self.rows.allocator();
        let Ok(positions) = find_positions(alloc, self.rows.as_slice()) else {
            return;
        };
        self.positions = Some(positions);
    }

    /// The rows, lent.
    pub fn rows(&self) -> &[LineRow]
        ensures value { result.now ≡ self.now }
        ensures table { IsTable self.now }
    {
        self.rows.as_slice()
    }

    /// The mid and the place of the row of the data channels.
    pub fn app(&self) -> Option<(Mid, u32)>
        ensures { result ≡ option_map (λ row. (row_mid row, row_place row)) (app_of self.now) }
    {
        match find_app(self.rows.as_slice()) {
            Some(row) => Some((row.mid(), row.place())),
            None => None,
        }
    }

    /// The row of a mid, lent.
    pub fn find(&self, mid: Mid) -> Option<&LineRow>
        ensures { option_copied result ≡ row_of self.now mid }
    {
        find_served(&self.positions, self.rows.as_slice(), mid)
    }

    /// Whether a row has a mid.
    pub fn has_mid(&self, mid: Mid) -> bool
        ensures { result ≡ has_mid mid self.now }
    {
        self.find(mid).is_some()
    }

    /// Sets the direction of the live media row of a mid. Nothing is allocated.
    ///
    /// Returns false, and changes nothing, if there is no such row or it already has that direction.
    pub fn set_direction(&mut self, mid: Mid, dir: Direction) -> bool
        ensures changed { result ≡ is_changed (directed_row dir) (row_of self.old mid) }
        ensures rows { self.new ≡ changed_of (directed_row dir) mid self.old }
    {
        let Some(row) = find_served(&self.positions, self.rows.as_slice(), mid) else {
            return false;
        };
        let Some(directed_row) = direct_row(row, dir) else {
            return false;
        };
        self.rows[directed_row.place() as usize] = directed_row;
        true
    }

    /// Stops the live media row of a mid for good. Nothing is allocated.
    ///
    /// Returns false, and changes nothing, if there is no such row.
    pub fn stop(&mut self, mid: Mid) -> bool
        ensures changed { result ≡ is_changed stopped_row (row_of self.old mid) }
        ensures rows { self.new ≡ changed_of stopped_row mid self.old }
    {
        let Some(row) = find_served(&self.positions, self.rows.as_slice(), mid) else {
            return false;
        };
        let Some(stopped_row) = stop_row(row) else {
            return false;
        };
        self.rows[stopped_row.place() as usize] = stopped_row;
        true
    }

    /// Gives the media row of a mid a direction and a mark of being stopped, as it had them before an offer that is
    /// rolled back (RFC 8829, section 5.7). Nothing is allocated, and nothing happens if there is no such row.
    pub fn restore(&mut self, mid: Mid, dir: Direction, stopped: bool)
        requires { IsTrue stopped → dir ≡ Inactive }
        ensures rows { self.new ≡ changed_of (restored_row dir stopped) mid self.old }
        ensures count { length self.new ≡ length self.old }
    {
        let Some(row) = find_served(&self.positions, self.rows.as_slice(), mid) else {
            return;
        };
        let Some(restored_row) = restore_row(row, dir, stopped) else {
            return;
        };
        self.rows[restored_row.place() as usize] = restored_row;
    }

    /// Declares a media line behind the others, sendrecv and created here.
    ///
    /// Returns false, and changes nothing, if a row has the mid.
    pub fn declare(&mut self, mid: Mid, kind: MediaKind) -> Result<bool, AllocError>
        requires { length self.old < 2 ^ 32 - 1 }
        ensures { Declares self.old mid kind result self.new }
    {
        if has_row(self.rows.as_slice(), mid) {
            return Ok(false);
        }
        let row = LineRow::Media {
            place: self.rows.len() as u32,
            mid,
            kind,
            dir: Direction::SendRecv,
            stopped: false,
            remote_created: false,
        };
        self.rows.push(row)?;
        self.positions = None;
        self.walks = 0;
        Ok(true)
    }

    /// Removes the media row of a mid if it is the last, and else stops it for good. Nothing is allocated.
    ///
    /// Returns false, and changes nothing, if there is no such row.
    pub fn remove(&mut self, mid: Mid) -> bool
        ensures removed { result ≡ is_some (media_place (row_of self.old mid)) }
        ensures rows { self.new ≡ rows_without mid self.old }
    {
        let Some(place) = find_media(self.rows.as_slice(), mid) else {
            return false;
        };
        if place as usize + 1 == self.rows.len() {
            self.rows.truncate(place as usize);
            self.positions = None;
            self.walks = 0;
        } else {
            self.stop(mid);
        }
        true
    }

    /// Makes room for the rows of a plan, so that committing it allocates nothing.
    ///
    /// A plan brings its rows with their memory, so that nothing is left to allocate here.
    pub fn reserve(&mut self, plan: &Plan) -> Result<(), AllocError>
        ensures { self.new ≡ self.old }
    {
        let _room = plan.rows.len();
        Ok(())
    }

    /// Replaces the rows by those of a plan. Nothing is allocated.
    pub fn commit(&mut self, plan: Plan)
        requires { IsTable plan.rows }
        ensures { self.new ≡ plan.rows }
    {
        self.rows = plan.rows.into_vec();
        self.positions = None;
        self.walks = 0;
    }
}
