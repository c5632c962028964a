//! What the media part is given of the lines of an offer or an answer.
ghost use Rattle.std.specs.Prelude.{◌≡◌, ◌++◌, ◌&&◌, not, [], List, ℕ, IfOk, OnOk, option_map, Option, Some, None, length, slice_get};
ghost use Rattle.std.specs.List.{flat_map};
ghost use Rattle.std.specs.Option.{option_copied};
ghost use Rattle.rtc_parts.specs.Draws.{Later};
ghost use Rattle.rtc_peer_core.specs.Sources.{has_source, pair_numbers, pair_count as PairCount};
ghost use Rattle.rtc_peer_core.specs.LineUpdates.{
  line_sending,
  row_kind,
  wants_sources as WantsSources,
  row_update as RowUpdate,
  if_media,
  row_pairs,
  after_row,
  row_updates,
  after_updates,
};

use crate::sent_on_lines::find_layered;
use crate::updated_rows::{kind_of_row, make_update};
use crate::{EarlierNumbers, draw_pairs};
use rtc_change::Change;
use rtc_parts::{Ids, MediaSession, MediaUpdate};
use rtc_peer_core::{Formats, Sending};
use rtc_sdp_values::{LineRow, MediaLine, Simulcast, Ssrc};
use rtc_wire::Seq;
use std::alloc::{AllocError, Global};

/// How many SSRCs a line is to have.
pub fn count_pairs(simulcast: &Option<Simulcast>) -> usize
    ensures { result ≡ PairCount simulcast.now }
{
    match simulcast {
        None => 1,
        Some(simulcast) => simulcast.send.len(),
    }
}

// Whether a row sends and has no SSRC yet.
fn wants_sources(row: &LineRow, sending: &Sending) -> bool
    ensures { result ≡ WantsSources row.now sending.now }
{
    match row {
        LineRow::Media { dir, .. } => dir.is_sending() && sending.ssrcs.is_empty(),
        LineRow::App { .. } => false,
    }
}

// The SSRCs that are drawn for a row.
#[tactic(auto, using(rtc_parts::proofs::LaterLemmas::later_none))]
fn draw_row<M: MediaSession, N: Ids>(
    alloc: Global,
    ids: &mut N,
    media: &M,
    earlier: &mut EarlierNumbers,
    row: &LineRow,
    sending: &Sending,
) -> Result<Seq<(Ssrc, Option<Ssrc>)>, AllocError>
    ensures pairs { IfOk result (λ pairs. pairs ≡ row_pairs N.ids (has_source M.media media.now) sending.now earlier.old row.now ids.old) }
    ensures earlier { IfOk result (λ pairs. earlier.new ≡ earlier.old ++ flat_map pair_numbers pairs) }
    ensures after { OnOk result (ids.new ≡ after_row N.ids (has_source M.media media.now) sending.now row.now ids.old) }
    ensures later { Later N.ids ids.old ids.new }
    ensures most { Later N.ids ids.new (after_row N.ids (has_source M.media media.now) sending.now row.now ids.old) }
{
    if !wants_sources(row, sending) {
        return Ok(Seq::empty(alloc));
    }
    let count = count_pairs(&sending.simulcast);
    let pairs = draw_pairs(alloc, ids, media, earlier, kind_of_row(row), count)?;
    Ok(pairs)
}

fn push_if_media(
    updates: &mut Vec<MediaUpdate>,
    row: &LineRow,
    update: MediaUpdate,
) -> Result<(), AllocError>
    ensures { OnOk result (updates.new.items ≡ updates.old.items ++ if_media row.now update) }
{
    match row {
        LineRow::Media { .. } => {
            updates.push(update)?;
            Ok(())
        }
        LineRow::App { .. } => {
            drop(update);
            Ok(())
        }
    }
}

// A row of an offer or an answer, with the row that was at its place before and the m-line that names it.
#[derive(Drop)]
struct NamedRow<'a> {
    formats: &'a Formats,
    offer: bool,
    before: Option<&'a LineRow>,
    row: &'a LineRow,
    line: &'a MediaLine,
}

// Appends what the media part is given of a row.
fn push_update<M: MediaSession, N: Ids>(
    alloc: Global,
    ids: &mut N,
    media: &M,
    earlier: &mut EarlierNumbers,
    named: &NamedRow<'_>,
    sending: Sending,
    updates: &mut Vec<MediaUpdate>,
) -> Result<(), AllocError>
    ensures updates { OnOk result (updates.new.items ≡ updates.old.items ++ if_media named.now.row.now (RowUpdate
        named.now.formats.now named.now.offer (option_copied named.now.before) named.now.row.now named.now.line.now sending
        (row_pairs N.ids (has_source M.media media.now) sending earlier.old named.now.row.now ids.old))) }
    ensures earlier { OnOk result (earlier.new
        ≡ earlier.old ++ flat_map pair_numbers
        (row_pairs N.ids (has_source M.media media.now) sending earlier.old named.now.row.now ids.old)) }
    ensures after { OnOk result (ids.new ≡ after_row N.ids (has_source M.media media.now) sending named.now.row.now ids.old) }
    ensures later { Later N.ids ids.old ids.new }
    ensures most { Later N.ids ids.new (after_row N.ids (has_source M.media media.now) sending named.now.row.now ids.old) }
{
    let drawn = match draw_row(alloc, ids, media, earlier, named.row, &sending) {
        Ok(drawn) => drawn,
        Err(error) => {
            drop(sending);
            return Err(error);
        }
    };
    let update = make_update(
        alloc,
        named.formats,
        named.offer,
        named.before,
        named.row,
        named.line,
        sending,
        drawn,
    )?;
    push_if_media(updates, named.row, update)?;
    Ok(())
}

fn row_at(rows: &[LineRow], place: usize) -> Option<&LineRow>
    ensures { option_copied result ≡ slice_get rows.now place }
{
    rows.get(place)
}

fn line_at(lines: &[MediaLine], place: usize) -> Option<&MediaLine>
    ensures { option_copied result ≡ slice_get lines.now place }
{
    lines.get(place)
}

/// What the media part is given of rows, with the rows that were at their places before and the m-lines that name them.
#[tactic(auto, using(rtc_parts::proofs::LaterLemmas::later_none, rtc_parts::proofs::LaterLemmas::later_join))]
pub fn list_updates<M: MediaSession, N: Ids>(
    alloc: Global,
    ids: &mut N,
    media: &M,
    formats: &Formats,
    changes: &[Change],
    offer: bool,
    before: &[LineRow],
    rows: &[LineRow],
    lines: &[MediaLine],
) -> Result<Vec<MediaUpdate>, AllocError>
    ensures updates { IfOk result (λ updates. updates.items ≡ row_updates N.ids (has_source M.media media.now)
        (line_sending (M.media.line media.now) changes.now) formats.now offer before.now rows.now lines.now [] ids.old) }
    ensures after { OnOk result (ids.new ≡ after_updates N.ids (has_source M.media media.now)
        (line_sending (M.media.line media.now) changes.now) rows.now lines.now ids.old) }
    ensures later { Later N.ids ids.old ids.new }
    ensures most { Later N.ids ids.new (after_updates N.ids (has_source M.media media.now)
        (line_sending (M.media.line media.now) changes.now) rows.now lines.now ids.old) }
{
    let mut updates = Vec::new(alloc);
    let mut drawn = EarlierNumbers::new(alloc);
    let mut place = 0;
    for row in rows {
        let Some(line) = line_at(lines, place) else {
            return Ok(updates);
        };
        let sending = find_layered(alloc, media, changes, line, row.mid())?;
        let named = NamedRow {
            formats,
            offer,
            before: row_at(before, place),
            row,
            line,
        };
        push_update(alloc, ids, media, &mut drawn, &named, sending, &mut updates)?;
        place += 1;
    }
    Ok(updates)
}
