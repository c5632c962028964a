//! What the media part is given of a row.
ghost use Rattle.std.specs.Prelude.{◌≡◌, ◌++◌, ◌&&◌, not, [], IfOk, OnOk};
ghost use Rattle.std.specs.Option.{option_copied};
ghost use Rattle.rtc_sdp_codecs.specs.LineFormats.{matched_rows, shared_extensions};
ghost use Rattle.rtc_peer_core.specs.MadeSdp.{is_stopped};
ghost use Rattle.rtc_peer_core.specs.LineUpdates.{
  row_kind,
  is_added as IsAdded,
  replaced_mid as ReplacedMid,
  row_update as RowUpdate,
};

use crate::describing::is_stopped_row;
use rtc_parts::MediaUpdate;
use rtc_peer_core::{Formats, Sending};
use rtc_sdp_codecs::{match_rows, share_extensions};
use rtc_sdp_values::{LineRow, MediaKind, MediaLine, Mid, Ssrc};
use rtc_wire::Seq;
use rtc_wire_drops::{fill, set, whole};
use std::alloc::{AllocError, Global};
use std::mem;

/// The kind of media of a row.
pub fn kind_of_row(row: &LineRow) -> MediaKind
    ensures { result ≡ row_kind row.now }
{
    match row {
        LineRow::Media { kind, .. } => *kind,
        LineRow::App { .. } => MediaKind::Audio,
    }
}

// Whether a row is new at its place, by the row that stood there before.
fn is_added(before: Option<&LineRow>, row: &LineRow) -> bool
    ensures { result ≡ IsAdded (option_copied before.entry) row.now }
{
    match before {
        None => true,
        Some(before) => before.mid() != row.mid(),
    }
}

// The mid of the row whose place a row takes.
fn replaced_mid(before: Option<&LineRow>, row: &LineRow) -> Option<Mid>
    ensures { result ≡ ReplacedMid (option_copied before.entry) row.now }
{
    match before {
        None => None,
        Some(before) => {
            if before.mid() == row.mid() {
                None
            } else {
                Some(before.mid())
            }
        }
    }
}

fn is_announced(offer: bool, before: Option<&LineRow>, row: &LineRow) -> bool
    ensures { result ≡ (offer && (IsAdded (option_copied before.entry) row.now && not (is_stopped row.now))) }
{
    if !offer {
        return false;
    }
    is_added(before, row) && !is_stopped_row(row)
}

// Puts the drawn SSRCs behind the others.
fn push_drawn(
    alloc: Global,
    drawn: Seq<(Ssrc, Option<Ssrc>)>,
    ssrcs: &mut Seq<(Ssrc, Option<Ssrc>)>,
) -> Result<(), AllocError>
    ensures { OnOk result (ssrcs.new ≡ ssrcs.old ++ drawn) }
{
    let mut pairs = mem::replace(ssrcs, Seq::empty(alloc)).into_vec();
    let mut drawn = drawn.into_vec();
    pairs.append(&mut drawn)?;
    *ssrcs = Seq::new(pairs);
    Ok(())
}

// Puts what an update has of both sides.
fn put_shared(
    alloc: Global,
    formats: &Formats,
    row: &LineRow,
    line: &MediaLine,
    drawn: Seq<(Ssrc, Option<Ssrc>)>,
    update: &mut MediaUpdate,
) -> Result<(), AllocError>
    ensures { OnOk result (update.new ≡ record update.old {
      payloads = matched_rows (row_kind row.now) formats.now.codecs.rows line.now.payloads;
      exts = shared_extensions formats.now.extensions.rows line.now.exts;
      ssrcs_tx = update.old.ssrcs_tx ++ drawn;
      ssrcs_rx = line.now.ssrcs;
    }) }
{
    push_drawn(alloc, drawn, &mut update.ssrcs_tx)?;
    let payloads = match_rows(
        alloc,
        kind_of_row(row),
        formats.codecs.rows.as_slice(),
        line.payloads.as_slice(),
    )?;
    set(&mut update.payloads, Seq::new(payloads));
    let exts = share_extensions(
        alloc,
        formats.extensions.rows.as_slice(),
        line.exts.as_slice(),
    )?;
    set(&mut update.exts, Seq::new(exts));
    fill(&mut update.ssrcs_rx, &line.ssrcs)
}

/// What the media part is given of a row.
pub fn make_update(
    alloc: Global,
    formats: &Formats,
    offer: bool,
    before: Option<&LineRow>,
    row: &LineRow,
    line: &MediaLine,
    sending: Sending,
    drawn: Seq<(Ssrc, Option<Ssrc>)>,
) -> Result<MediaUpdate, AllocError>
    ensures { IfOk result (λ update. update
        ≡ RowUpdate formats.now offer (option_copied before.entry) row.now line.now sending drawn) }
{
    let Sending {
        simulcast,
        msid,
        cname,
        ssrcs,
    } = sending;
    let mut update = MediaUpdate {
        row: *row,
        removed: replaced_mid(before, row),
        announce: is_announced(offer, before, row),
        payloads: Seq::empty(alloc),
        exts: Seq::empty(alloc),
        simulcast,
        msid,
        cname,
        ssrcs_tx: ssrcs,
        ssrcs_rx: Seq::empty(alloc),
    };
    let put = put_shared(alloc, formats, row, line, drawn, &mut update);
    whole(update, put)
}
