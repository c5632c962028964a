//! Lines whose direction is set, or that are stopped.
ghost use Rattle.std.specs.Prelude.{◌≡◌, ◌++◌, ◌∷◌, [], not, IfOk, OnOk, OnErr};
ghost use Rattle.rtc_change.specs.declared.change.Change.TheVariants.{Direction as DirectionSet};
ghost use Rattle.rtc_peer_rows.specs.RowChanges.{directed_row, stopped_row, is_changed};
ghost use Rattle.rtc_peer_rows.specs.Table.{row_of};
ghost use Rattle.rtc_peer_core.specs.Calls.{SetsDirection, StopsMedia, noted_of};
ghost use Rattle.rtc_peer_core.specs.Undo.{has_undo_of};

use rtc_change::{Lines, direct_row, stop_row};
use rtc_parts::Association;
use rtc_peer_core::{Peer, Staged, Undo};
use rtc_sdp_values::{Direction, Mid};
use std::alloc::AllocError;

// Whether the line of a mid is of live media and has another direction.
fn can_direct(lines: &Lines, mid: Mid, dir: Direction) -> bool
    ensures { result ≡ is_changed (directed_row dir) (row_of lines.now mid) }
{
    match lines.find(mid) {
        Some(row) => direct_row(row, dir).is_some(),
        None => false,
    }
}

// Whether the line of a mid is of live media.
fn can_stop(lines: &Lines, mid: Mid) -> bool
    ensures { result ≡ is_changed stopped_row (row_of lines.now mid) }
{
    match lines.find(mid) {
        Some(row) => stop_row(row).is_some(),
        None => false,
    }
}

// Notes the row of a mid as it is, and returns whether it was not noted before.
fn note_row(undo: &mut Undo, lines: &Lines, mid: Mid) -> Result<bool, AllocError>
    ensures ok { OnOk result (undo.new ≡ noted_of (row_of lines.now mid) undo.old) }
    ensures added { IfOk result (λ added. added ≡ not (has_undo_of (row_of lines.now mid) undo.old)) }
    ensures err { OnErr result (undo.new ≡ undo.old) }
{
    match lines.find(mid) {
        Some(row) => undo.note(row),
        None => Ok(false),
    }
}

// Stages the direction that the line of a mid is to have, and notes its row as it was. Both or none.
fn stage_direction(
    staged: &mut Staged,
    undo: &mut Undo,
    lines: &Lines,
    mid: Mid,
    dir: Direction,
) -> Result<(), AllocError>
    ensures staged { OnOk result (staged.new ≡ staged.old ++ DirectionSet mid dir ∷ []) }
    ensures noted { OnOk result (undo.new ≡ noted_of (row_of lines.now mid) undo.old) }
    ensures unstaged { OnErr result (staged.new ≡ staged.old) }
    ensures unnoted { OnErr result (undo.new ≡ undo.old) }
{
    let is_new = note_row(undo, lines, mid)?;
    match staged.push_direction(mid, dir) {
        Ok(()) => Ok(()),
        Err(error) => {
            if is_new {
                undo.forget_last();
            }
            Err(error)
        }
    }
}

/// Sets the direction of the live media line of a mid, and stages it; returns whether the line changed.
pub fn set_direction<I, D, S: Association, M, N>(
    peer: &mut Peer<I, D, S, M, N>,
    mid: Mid,
    dir: Direction,
) -> Result<bool, AllocError>
    ensures { SetsDirection peer.old mid dir result peer.new }
{
    peer.lines.expect_look_up();
    if !can_direct(&peer.lines, mid, dir) {
        return Ok(false);
    }
    stage_direction(&mut peer.staged, &mut peer.undo, &peer.lines, mid, dir)?;
    peer.lines.set_direction(mid, dir);
    Ok(true)
}

/// Stops the live media line of a mid for good, and stages it; returns whether the line changed.
pub fn stop_media<I, D, S: Association, M, N>(
    peer: &mut Peer<I, D, S, M, N>,
    mid: Mid,
) -> Result<bool, AllocError>
    ensures { StopsMedia peer.old mid result peer.new }
{
    peer.lines.expect_look_up();
    if !can_stop(&peer.lines, mid) {
        return Ok(false);
    }
    stage_direction(
        &mut peer.staged,
        &mut peer.undo,
        &peer.lines,
        mid,
        Direction::Inactive,
    )?;
    peer.lines.stop(mid);
    Ok(true)
}
