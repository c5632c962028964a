//! Why a line is refused.
ghost use Rattle.std.specs.Prelude.{◌≡◌, ◌<◌, ◌^◌, ◌-◌, ◌||◌, nat_lt, Bool, true, false, length, slice_get, Some, None};
ghost use Rattle.std.specs.Option.{option_copied};
ghost use Rattle.rtc_peer_rows.specs.Table.{Distinct, row_of, app_of, has_mid};
ghost use Rattle.rtc_peer_rows.specs.DeclaredMedia.{media_place};
ghost use Rattle.rtc_peer_rows.specs.Verdict.{app_refusal, known_refusal, place_refusal, media_refusal, line_refusal, first_refusal};

use crate::mid_index::MidIndex;
use crate::{ParsedLine, Why};
use rtc_sdp_values::{LineKind, LineRow, MediaKind, Mid};

/// The row of a mid.
pub fn find_row(rows: &[LineRow], mid: Mid) -> Option<&LineRow>
    ensures { option_copied result ≡ row_of rows.now mid }
{
    for row in rows {
        if row.mid() == mid {
            return Some(row);
        }
    }
    None
}

/// The place of the media row of a mid.
pub fn find_media(rows: &[LineRow], mid: Mid) -> Option<u32>
    ensures { result ≡ media_place (row_of rows.now mid) }
{
    match find_row(rows, mid) {
        Some(LineRow::Media { place, .. }) => Some(*place),
        _ => None,
    }
}

/// The row of the data channels.
pub fn find_app(rows: &[LineRow]) -> Option<&LineRow>
    ensures { option_copied result ≡ app_of rows.now }
{
    for row in rows {
        if let LineRow::App { .. } = row {
            return Some(row);
        }
    }
    None
}

/// Whether a row has a mid.
pub fn has_row(rows: &[LineRow], mid: Mid) -> bool
    ensures { result ≡ has_mid mid rows.now }
{
    for row in rows {
        if row.mid() == mid {
            return true;
        }
    }
    false
}

// Whether a new line of this mid cannot have a place that no row has.
fn is_taken(rows: &[LineRow], place: u32, mid: Mid) -> bool
    ensures { result ≡ (nat_lt place (length rows.now) || has_mid mid rows.now) }
{
    (place as usize) < rows.len() || has_row(rows, mid)
}

// A second application line is refused before the rows are looked through, so that they are once at most.
fn judge_app(rows: &[LineRow], came: bool, place: u32, mid: Mid) -> Option<Why>
    ensures { result ≡ app_refusal rows.now came place mid }
{
    if came {
        return Some(Why::MovedLine(mid));
    }
    match find_app(rows) {
        None => {
            if is_taken(rows, place, mid) {
                Some(Why::MovedLine(mid))
            } else {
                None
            }
        }
        Some(row) => {
            if row.place() == place {
                None
            } else {
                Some(Why::MovedLine(mid))
            }
        }
    }
}

// A media line whose mid this row has.
fn judge_known(place: u32, kind: MediaKind, mid: Mid, row: &LineRow) -> Option<Why>
    ensures { result ≡ known_refusal place kind mid row.now }
{
    match row {
        LineRow::Media {
            place: p,
            kind: k,
            ..
        } => {
            if *p == place && *k == kind {
                None
            } else {
                Some(Why::MovedLine(mid))
            }
        }
        LineRow::App { .. } => Some(Why::MovedLine(mid)),
    }
}

// A media line whose mid no row has, at the place of this row.
fn judge_place(offer: bool, mid: Mid, row: &LineRow) -> Option<Why>
    ensures { result ≡ place_refusal offer mid (Some row.now) }
{
    match row {
        LineRow::App { .. } => Some(Why::MovedLine(mid)),
        LineRow::Media { stopped, .. } => {
            if !offer {
                Some(Why::AnswerRecycles(mid))
            } else if *stopped {
                None
            } else {
                Some(Why::PlaceTaken(mid))
            }
        }
    }
}

// A media line whose mid no row has.
fn judge_free(rows: &[LineRow], offer: bool, place: u32, mid: Mid) -> Option<Why>
    ensures { result ≡ place_refusal offer mid (slice_get rows.now place) }
{
    match rows.get(place as usize) {
        Some(row) => judge_place(offer, mid, row),
        None => None,
    }
}

fn judge_media(
    rows: &MidIndex<'_>,
    offer: bool,
    place: u32,
    kind: MediaKind,
    mid: Mid,
) -> Option<Why>
    requires { Distinct rows.now }
    ensures { result ≡ media_refusal rows.now offer place kind mid }
{
    match rows.find_at(place as usize, mid) {
        Some(row) => judge_known(place, kind, mid, row),
        None => judge_free(rows.as_slice(), offer, place, mid),
    }
}

fn judge_line(
    rows: &MidIndex<'_>,
    offer: bool,
    came: bool,
    place: u32,
    parsed: &ParsedLine,
) -> Option<Why>
    requires { Distinct rows.now }
    ensures { result ≡ line_refusal rows.now offer came place parsed.now }
{
    match parsed.kind {
        LineKind::Audio => judge_media(rows, offer, place, MediaKind::Audio, parsed.mid),
        LineKind::Video => judge_media(rows, offer, place, MediaKind::Video, parsed.mid),
        LineKind::Application => judge_app(rows.as_slice(), came, place, parsed.mid),
        LineKind::Unknown => Some(Why::MovedLine(parsed.mid)),
    }
}

// Drops a value, by one call for all that is in it.
fn release<T: Drop>(_value: T) {}

/// The refusal of the first line that is refused.
pub fn judge_lines(rows: &MidIndex<'_>, offer: bool, lines: &[ParsedLine]) -> Option<Why>
    requires few { length lines.now < 2 ^ 32 - 1 }
    requires distinct { Distinct rows.now }
    ensures { result ≡ first_refusal rows.now offer false 0 lines.now }
{
    let mut came = false;
    for (place, parsed) in lines.iter().enumerate() {
        let refused = judge_line(rows, offer, came, place as u32, parsed);
        if refused.is_some() {
            return refused;
        }
        release(refused);
        came = came || parsed.kind == LineKind::Application;
    }
    None
}
