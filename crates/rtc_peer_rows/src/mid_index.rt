//! Rows that are found by mid.
ghost use Rattle.std.specs.Prelude.{◌≡◌, IfOk, slice_get};
ghost use Rattle.std.specs.Option.{option_copied};
ghost use Rattle.rtc_peer_rows.specs.MidIndex.{HasPositions, Serves};
ghost use Rattle.rtc_peer_rows.specs.Table.{Distinct, row_of};

use crate::ParsedLine;
use crate::judging::find_row;
use rtc_sdp_values::{LineRow, Mid};
use std::alloc::{AllocError, Global};
use std::collections::BTreeMap;
use std::marker::Model;

/// Rows that are found by mid without a walk over them. A contract sees the rows.
#[derive(Drop)]
pub struct MidIndex<'a> {
    rows: &'a [LineRow],
    // The position of the first row of each mid; None if lines are expected at their places.
    positions: Option<BTreeMap<Mid, usize>>,
}

impl<'a> Model for MidIndex<'a> {
    ghost use Rattle.std.specs.Prelude.{List};
    ghost use Rattle.rtc_sdp_values.specs.declared.line_row.LineRow.{LineRow};
    ghost use Rattle.rtc_peer_rows.specs.MidIndex.{Serves};

    ghost Value = { List LineRow };

    ghost view = { λ index. index.rows.now };

    ghost invariant = { λ index. Serves index.positions index.rows.now };
}

/// The position of the first row of each mid.
pub fn find_positions(alloc: Global, rows: &[LineRow]) -> Result<BTreeMap<Mid, usize>, AllocError>
    ensures { IfOk result (λ positions. HasPositions positions 0 rows.now) }
{
    let mut positions = BTreeMap::new(alloc);
    let mut at = rows.len();
    while at > 0 {
        at -= 1;
        positions.insert(rows[at].mid(), at)?;
    }
    Ok(positions)
}

fn row_at(rows: &[LineRow], place: usize) -> Option<&LineRow>
    ensures { option_copied result ≡ slice_get rows.now place }
{
    rows.get(place)
}

fn look_up<'a>(
    positions: &BTreeMap<Mid, usize>,
    rows: &'a [LineRow],
    mid: Mid,
) -> Option<&'a LineRow>
    requires { HasPositions positions.now 0 rows.now }
    ensures { option_copied result ≡ row_of rows.now mid }
{
    let Some(at) = positions.get(&mid) else {
        return None;
    };
    row_at(rows, *at)
}

/// The row of a mid, by a map if there is one.
pub fn find_served<'a>(
    positions: &Option<BTreeMap<Mid, usize>>,
    rows: &'a [LineRow],
    mid: Mid,
) -> Option<&'a LineRow>
    requires { Serves positions.now rows.now }
    ensures { option_copied result ≡ row_of rows.now mid }
{
    match positions {
        Some(positions) => look_up(positions, rows, mid),
        None => find_row(rows, mid),
    }
}

// Whether each line has the mid of the row at its place: then no line is looked for by its mid.
fn are_in_place(rows: &[LineRow], lines: &[ParsedLine]) -> bool {
    for (place, line) in lines.iter().enumerate() {
        let Some(row) = rows.get(place) else {
            return false;
        };
        if row.mid() != line.mid {
            return false;
        }
    }
    true
}

impl<'a> MidIndex<'a> {
    /// The index of rows.
    pub fn new(alloc: Global, rows: &'a [LineRow]) -> Result<MidIndex<'a>, AllocError>
        ensures { IfOk result (λ index. index ≡ rows.now) }
    {
        let positions = find_positions(alloc, rows)?;
        Ok(MidIndex {
            rows,
            positions: Some(positions),
        })
    }

    /// The index of rows that lines are to be looked for in. Lines at their places need no map.
    pub fn for_lines(
        alloc: Global,
        rows: &'a [LineRow],
        lines: &[ParsedLine],
    ) -> Result<MidIndex<'a>, AllocError>
        ensures { IfOk result (λ index. index ≡ rows.now) }
    {
        if are_in_place(rows, lines) {
            return Ok(MidIndex {
                rows,
                positions: None,
            });
        }
        MidIndex::new(alloc, rows)
    }

    /// The rows, lent.
    pub fn as_slice(&self) -> &[LineRow]
        ensures { result.now ≡ self.now }
    {
        self.rows
    }

    /// The row of a mid.
    pub fn find(&self, mid: Mid) -> Option<&LineRow>
        ensures { option_copied result ≡ row_of self.now mid }
    {
        find_served(&self.positions, self.rows, mid)
    }

    /// The row of the mid of a line; its place is looked at first.
    pub fn find_at(&self, place: usize, mid: Mid) -> Option<&LineRow>
        requires { Distinct self.now }
        ensures { option_copied result ≡ row_of self.now mid }
    {
        match row_at(self.rows, place) {
            Some(row) if row.mid() == mid => Some(row),
            _ => self.find(mid),
        }
    }
}
