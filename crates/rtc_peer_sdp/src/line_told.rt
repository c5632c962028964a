//! What the lines of a peer carry of their media.
ghost use Rattle.std.specs.Prelude.{◌≡◌, IfOk, OnOk, Option, Some, None, false};
ghost use Rattle.std.specs.Option.{option_copied};
ghost use Rattle.rtc_peer_core.specs.MadeSdp.{
  no_media as NoMedia,
  media_of_update as MediaOfUpdate,
  media_of_added as MediaOfAdded,
  media_of_declared as MediaOfDeclared,
  media_held as MediaHeld,
  media_told as MediaTold,
  newest as Newest,
};

use crate::sent_on_lines::bare_sending;
use rtc_change::AddMedia;
use rtc_parts::{MediaSession, MediaUpdate};
use rtc_peer_core::{Formats, LineMedia, Sending};
use rtc_sdp_codecs::{extensions_of_kind, rows_of_kind};
use rtc_sdp_values::{LineRow, MediaKind, Mid};
use rtc_wire::Seq;
use rtc_wire_drops::{fill, fill_some, set, whole};
use std::alloc::{AllocError, Global};

/// Nothing of media.
pub fn no_media(alloc: Global) -> LineMedia
    ensures { result ≡ NoMedia }
{
    LineMedia {
        payloads: Seq::empty(alloc),
        exts: Seq::empty(alloc),
        simulcast: None,
        msid: None,
        cname: None,
        ssrcs: Seq::empty(alloc),
    }
}

fn put_update(update: &MediaUpdate, media: &mut LineMedia) -> Result<(), AllocError>
    ensures { OnOk result (media.new ≡ MediaOfUpdate update.now) }
{
    fill(&mut media.payloads, &update.payloads)?;
    fill(&mut media.exts, &update.exts)?;
    fill(&mut media.simulcast, &update.simulcast)?;
    fill(&mut media.msid, &update.msid)?;
    fill(&mut media.cname, &update.cname)?;
    fill(&mut media.ssrcs, &update.ssrcs_tx)
}

fn media_of_update(alloc: Global, update: &MediaUpdate) -> Result<LineMedia, AllocError>
    ensures { IfOk result (λ media. media ≡ MediaOfUpdate update.now) }
{
    let mut media = no_media(alloc);
    let put = put_update(update, &mut media);
    whole(media, put)
}

fn put_added(
    alloc: Global,
    formats: &Formats,
    added: &AddMedia,
    media: &mut LineMedia,
) -> Result<(), AllocError>
    ensures { OnOk result (media.new ≡ MediaOfAdded formats.now added.now) }
{
    let payloads = rows_of_kind(alloc, added.kind, formats.codecs.rows.as_slice())?;
    set(&mut media.payloads, Seq::new(payloads));
    let exts = extensions_of_kind(alloc, added.kind, formats.extensions.rows.as_slice())?;
    set(&mut media.exts, Seq::new(exts));
    fill(&mut media.simulcast, &added.simulcast)?;
    fill_some(&mut media.msid, &added.msid)?;
    fill_some(&mut media.cname, &added.cname)?;
    fill(&mut media.ssrcs, &added.ssrcs)
}

/// What a line carries that this side adds: the rows and the extensions of its kind, and what was staged with it.
pub fn media_of_added(
    alloc: Global,
    formats: &Formats,
    added: &AddMedia,
) -> Result<LineMedia, AllocError>
    ensures { IfOk result (λ made. made ≡ MediaOfAdded formats.now added.now) }
{
    let mut media = no_media(alloc);
    let put = put_added(alloc, formats, added, &mut media);
    whole(media, put)
}

fn put_declared(
    alloc: Global,
    formats: &Formats,
    kind: MediaKind,
    mid: Mid,
    media: &mut LineMedia,
) -> Result<(), AllocError>
    ensures { OnOk result (media.new ≡ MediaOfDeclared formats.now false kind mid) }
{
    let payloads = rows_of_kind(alloc, kind, formats.codecs.rows.as_slice())?;
    set(&mut media.payloads, Seq::new(payloads));
    let exts = extensions_of_kind(alloc, kind, formats.extensions.rows.as_slice())?;
    set(&mut media.exts, Seq::new(exts));
    let bare = bare_sending(alloc, mid)?;
    let Sending {
        simulcast,
        msid,
        cname,
        ssrcs,
    } = bare;
    set(&mut media.simulcast, simulcast);
    set(&mut media.msid, msid);
    set(&mut media.cname, cname);
    set(&mut media.ssrcs, ssrcs);
    Ok(())
}

// What a line carries that was declared and is not negotiated yet.
fn media_of_declared(
    alloc: Global,
    formats: &Formats,
    stopped: bool,
    kind: MediaKind,
    mid: Mid,
) -> Result<LineMedia, AllocError>
    ensures { IfOk result (λ made. made ≡ MediaOfDeclared formats.now stopped kind mid) }
{
    let mut media = no_media(alloc);
    if stopped {
        return Ok(media);
    }
    let put = put_declared(alloc, formats, kind, mid, &mut media);
    whole(media, put)
}

// The first of these updates, or else what is held.
fn newest<'a>(updates: &'a [MediaUpdate], held: Option<&'a MediaUpdate>) -> Option<&'a MediaUpdate>
    ensures { option_copied result ≡ Newest updates.now (option_copied held.entry) }
{
    match updates {
        [] => held,
        [update, ..] => Some(update),
    }
}

// What a line carries of its media, if the media part has this of it; if it has nothing, the line is as it was declared.
fn media_held(
    alloc: Global,
    formats: &Formats,
    stopped: bool,
    kind: MediaKind,
    mid: Mid,
    held: Option<&MediaUpdate>,
) -> Result<LineMedia, AllocError>
    ensures { IfOk result (λ media. media ≡ MediaHeld (MediaOfDeclared formats.now stopped kind mid) (option_copied held.entry)) }
{
    match held {
        None => media_of_declared(alloc, formats, stopped, kind, mid),
        Some(update) => media_of_update(alloc, update),
    }
}

/// What the line of a row carries: of media what the first of these updates says, or else what the media part has of
/// its line. If it has nothing, the line is as it was declared.
pub fn media_told<M: MediaSession>(
    alloc: Global,
    formats: &Formats,
    media: &M,
    updates: &[MediaUpdate],
    row: &LineRow,
) -> Result<LineMedia, AllocError>
    ensures { IfOk result (λ told. told ≡ MediaTold formats.now (M.media.line media.now) updates.now row.now) }
{
    match row {
        LineRow::Media {
            mid,
            kind,
            stopped,
            ..
        } => {
            let held = media.line(*mid);
            let last = newest(updates, held);
            media_held(alloc, formats, *stopped, *kind, *mid, last)
        }
        LineRow::App { .. } => Ok(no_media(alloc)),
    }
}
