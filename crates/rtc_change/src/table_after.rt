//! The table that an accepted offer or answer leaves.
ghost use Rattle.std.specs.Prelude.{◌≡◌, ◌+◌, ◌<◌, ◌≤◌, ◌^◌, ◌-◌, Bool, length, IfOk, Option, max};
ghost use Rattle.std.specs.Option.{option_copied};
ghost use Rattle.rtc_peer_rows.specs.Table.{Distinct};
ghost use Rattle.rtc_change.specs.TableAfter.{
  media_after,
  app_after,
  row_after,
  table_after,
  is_new,
  new_places,
  removed_mid,
  removed_mids,
  dir_after,
  is_stopped_by,
};

use rtc_peer_rows::{MidIndex, ParsedLine, find_app};
use rtc_sdp_values::{Direction, LineKind, LineRow, MediaKind, Mid};
use rtc_wire::Seq;
use std::alloc::{AllocError, Global};

fn is_stopped_after(parsed: &ParsedLine, before: Option<&LineRow>) -> bool
    ensures { result ≡ is_stopped_by parsed.now (option_copied before.entry) }
{
    match before {
        Some(LineRow::Media { stopped, .. }) => parsed.rejected || *stopped,
        _ => parsed.rejected,
    }
}

fn direction_after(parsed: &ParsedLine, before: Option<&LineRow>) -> Direction
    ensures { result ≡ dir_after parsed.now (option_copied before.entry) }
{
    let dir = parsed.dir.invert();
    if is_stopped_after(parsed, before) {
        return Direction::Inactive;
    }
    match before {
        Some(
            LineRow::Media {
                dir: was,
                remote_created,
                ..
            },
        ) => {
            if !*remote_created && *was == Direction::Inactive && dir == Direction::SendOnly {
                Direction::Inactive
            } else {
                dir
            }
        }
        _ => dir,
    }
}

fn media_row(
    offer: bool,
    place: u32,
    kind: MediaKind,
    parsed: &ParsedLine,
    before: Option<&LineRow>,
) -> LineRow
    ensures { result ≡ media_after offer place kind parsed.now (option_copied before.entry) }
{
    let dir = direction_after(parsed, before);
    let stopped = is_stopped_after(parsed, before);
    let remote_created = match before {
        Some(LineRow::Media { remote_created, .. }) => *remote_created,
        _ => offer,
    };
    LineRow::Media {
        place,
        mid: parsed.mid,
        kind,
        dir,
        stopped,
        remote_created,
    }
}

fn app_row(rows: &[LineRow], place: u32, mid: Mid) -> LineRow
    ensures { result ≡ app_after rows.now place mid }
{
    match find_app(rows) {
        Some(row) => LineRow::App {
            place,
            mid: row.mid(),
        },
        None => LineRow::App { place, mid },
    }
}

fn row_of_line(rows: &MidIndex<'_>, offer: bool, place: u32, parsed: &ParsedLine) -> LineRow
    requires { Distinct rows.now }
    ensures { result ≡ row_after rows.now offer place parsed.now }
{
    match parsed.kind {
        LineKind::Audio => media_row(
            offer,
            place,
            MediaKind::Audio,
            parsed,
            rows.find_at(place as usize, parsed.mid),
        ),
        LineKind::Video => media_row(
            offer,
            place,
            MediaKind::Video,
            parsed,
            rows.find_at(place as usize, parsed.mid),
        ),
        LineKind::Application => app_row(rows.as_slice(), place, parsed.mid),
        LineKind::Unknown => LineRow::App {
            place,
            mid: parsed.mid,
        },
    }
}

/// The table afterwards.
pub fn list_rows_after(
    alloc: Global,
    rows: &MidIndex<'_>,
    offer: bool,
    lines: &[ParsedLine],
) -> Result<Seq<LineRow>, AllocError>
    requires few { length lines.now < 2 ^ 32 - 1 }
    requires distinct { Distinct rows.now }
    ensures { IfOk result (λ after. after ≡ table_after rows.now lines.now offer) }
{
    let mut after = Vec::new(alloc);
    for (place, parsed) in lines.iter().enumerate() {
        after.push(row_of_line(rows, offer, place as u32, parsed))?;
    }
    let before = rows.as_slice();
    if lines.len() < before.len() {
        after.extend_from_slice(&before[lines.len()..])?;
    }
    Ok(Seq::new(after))
}

/// Whether a line at a place adds a row.
pub fn is_new_line(rows: &MidIndex<'_>, place: usize, parsed: &ParsedLine) -> bool
    requires { Distinct rows.now }
    ensures { result ≡ is_new rows.now parsed.now }
{
    match parsed.kind {
        LineKind::Audio | LineKind::Video => rows.find_at(place, parsed.mid).is_none(),
        LineKind::Application => find_app(rows.as_slice()).is_none(),
        LineKind::Unknown => false,
    }
}

/// The places of the lines that add a row.
pub fn find_new_places(
    alloc: Global,
    rows: &MidIndex<'_>,
    lines: &[ParsedLine],
) -> Result<Seq<u32>, AllocError>
    requires few { length lines.now < 2 ^ 32 - 1 }
    requires distinct { Distinct rows.now }
    ensures places { IfOk result (λ places. places ≡ new_places rows.now 0 lines.now) }
    ensures count { IfOk result (λ places. length places ≤ length lines.now) }
{
    let mut places = Vec::new(alloc);
    for (place, parsed) in lines.iter().enumerate() {
        if is_new_line(rows, place, parsed) {
            places.push(place as u32)?;
        }
    }
    Ok(Seq::new(places))
}

// The mid of the row whose place a line takes.
fn removed_by(rows: &MidIndex<'_>, place: usize, parsed: &ParsedLine) -> Option<Mid>
    requires { Distinct rows.now }
    ensures { result ≡ removed_mid rows.now place parsed.now }
{
    if !is_new_line(rows, place, parsed) {
        return None;
    }
    match rows.as_slice().get(place) {
        Some(row) => Some(row.mid()),
        None => None,
    }
}

/// The mids of the rows whose place is given to another mid.
pub fn find_removed(
    alloc: Global,
    rows: &MidIndex<'_>,
    lines: &[ParsedLine],
) -> Result<Seq<Mid>, AllocError>
    requires { Distinct rows.now }
    ensures { IfOk result (λ mids. mids ≡ removed_mids rows.now 0 lines.now) }
{
    let mut mids = Vec::new(alloc);
    for (place, parsed) in lines.iter().enumerate() {
        if let Some(mid) = removed_by(rows, place, parsed) {
            mids.push(mid)?;
        }
    }
    Ok(Seq::new(mids))
}
