//! The rows that the offers and answers of a peer carry.
ghost use Rattle.std.specs.Prelude.{◌≡◌, ◌+◌, ◌++◌, ◌<◌, ◌^◌, [], IfOk, OnOk, length};
ghost use Rattle.rtc_change.specs.PendingOffer.{added_mids};
ghost use Rattle.rtc_peer_core.specs.MadeSdp.{updates_behind as UpdatesBehind, told_rows, new_told, added_told};
ghost use Rattle.rtc_peer_core.specs.SessionExtensions.{added_formats};

use crate::line_told::{media_of_added, media_told, no_media};
use crate::session_extensions::number_formats;
use rtc_change::Change;
use rtc_parts::{MediaSession, MediaUpdate};
use rtc_peer_core::{Formats, ToldRow};
use rtc_sdp_values::LineRow;
use std::alloc::{AllocError, Global};

// The updates behind that of a row, if it has one.
fn updates_behind<'a>(row: &LineRow, updates: &'a [MediaUpdate]) -> &'a [MediaUpdate]
    ensures { result.now ≡ UpdatesBehind row.now updates.now }
{
    match row {
        LineRow::Media { .. } => match updates {
            [] => updates,
            [_, rest @ ..] => rest,
        },
        LineRow::App { .. } => updates,
    }
}

/// Rows, with what the media part is about to be given of those in front, and what it has of the others.
pub fn tell_rows<M: MediaSession>(
    alloc: Global,
    formats: &Formats,
    media: &M,
    updates: &[MediaUpdate],
    rows: &[LineRow],
) -> Result<Vec<ToldRow>, AllocError>
    ensures { IfOk result (λ told. told.items ≡ told_rows formats.now (M.media.line media.now) updates.now rows.now) }
{
    let mut told = Vec::with_capacity(alloc, rows.len())?;
    let mut rest = updates;
    for row in rows {
        let media = media_told(alloc, formats, media, rest, row)?;
        told.push(ToldRow { row: *row, media })?;
        rest = updates_behind(row, rest);
    }
    Ok(told)
}

// The row of the line that a change adds at a place, if it adds one.
fn tell_change(
    alloc: Global,
    formats: &Formats,
    place: u32,
    change: &Change,
) -> Result<Option<ToldRow>, AllocError>
    ensures { IfOk result (λ told. told ≡ new_told formats.now place change.now) }
{
    match change {
        Change::AddMedia(added) => {
            let media = media_of_added(alloc, formats, added)?;
            let row = LineRow::Media {
                place,
                mid: added.mid,
                kind: added.kind,
                dir: added.dir,
                stopped: false,
                remote_created: false,
            };
            Ok(Some(ToldRow { row, media }))
        }
        Change::AddApp(mid) => {
            let row = LineRow::App { place, mid: *mid };
            Ok(Some(ToldRow {
                row,
                media: no_media(alloc),
            }))
        }
        Change::AddChannel(_, _) | Change::Direction(_, _) | Change::IceRestart(_, _) => Ok(None),
    }
}

// Appends the rows of the lines that changes add, at places from this one on.
fn push_added(
    alloc: Global,
    formats: &Formats,
    told: &mut Vec<ToldRow>,
    first: u32,
    staged: &[Change],
) -> Result<(), AllocError>
    requires { first + length (added_mids staged.now) < 2 ^ 32 }
    ensures { OnOk result (told.new.items ≡ told.old.items ++ added_told formats.now first staged.now) }
{
    let mut place = first;
    for change in staged {
        let added = tell_change(alloc, formats, place, change)?;
        let Some(row) = added else {
            continue;
        };
        told.push(row)?;
        place += 1;
    }
    Ok(())
}

// Appends them, with the numbers of header extensions that the rows before them use, if it was so set.
fn push_offered(
    alloc: Global,
    formats: &Formats,
    told: &mut Vec<ToldRow>,
    first: u32,
    staged: &[Change],
) -> Result<(), AllocError>
    requires { first + length (added_mids staged.now) < 2 ^ 32 }
    ensures { OnOk result (told.new.items ≡ told.old.items
        ++ added_told (added_formats formats.now.session_ids formats.now told.old.items) first staged.now) }
{
    if !formats.session_ids {
        return push_added(alloc, formats, told, first, staged);
    }
    let numbered = number_formats(alloc, formats, told.as_slice())?;
    push_added(alloc, &numbered, told, first, staged)
}

/// The rows of an offer, with what they carry: those that are there, then those that it adds.
pub fn tell_offered<M: MediaSession>(
    alloc: Global,
    media: &M,
    formats: &Formats,
    rows: &[LineRow],
    staged: &[Change],
) -> Result<Vec<ToldRow>, AllocError>
    requires { length rows.now + length (added_mids staged.now) < 2 ^ 32 }
    ensures { IfOk result (λ told. told.items
        ≡ told_rows formats.now (M.media.line media.now) [] rows.now ++ added_told
        (added_formats formats.now.session_ids formats.now (told_rows formats.now (M.media.line media.now) [] rows.now))
        (length rows.now) staged.now) }
{
    let mut told = tell_rows(alloc, formats, media, &[], rows)?;
    push_offered(alloc, formats, &mut told, rows.len() as u32, staged)?;
    Ok(told)
}
