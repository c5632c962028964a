//! What is sent on the lines of a peer.
ghost use Rattle.std.specs.Prelude.{◌≡◌, [], IfOk, OnOk, Option, Some, None, option_map};
ghost use Rattle.std.specs.Option.{option_copied, option_or};
ghost use Rattle.rtc_peer_core.specs.LineUpdates.{added_media, bare_sending as BareSending, sending_of, inverted, layered};

use rtc_change::{AddMedia, Change};
use rtc_parts::{MediaSession, MediaUpdate};
use rtc_peer_core::Sending;
use rtc_sdp_values::{MediaLine, Mid, Msid, Simulcast};
use rtc_wire::{Seq, Text};
use rtc_wire_drops::{fill, fill_some, set, whole};
use std::alloc::{AllocError, Global};

// The media line of a mid that changes add.
fn find_added(changes: &[Change], mid: Mid) -> Option<&AddMedia>
    ensures { option_copied result ≡ added_media changes.now mid }
{
    for change in changes {
        let Change::AddMedia(media) = change else {
            continue;
        };
        if media.mid == mid {
            return Some(media);
        }
    }
    None
}

// Nothing is sent.
fn no_sending(alloc: Global) -> Sending
    ensures { result ≡ record { simulcast = None; msid = None; cname = None; ssrcs = [] } }
{
    Sending {
        simulcast: None,
        msid: None,
        cname: None,
        ssrcs: Seq::empty(alloc),
    }
}

fn put_update(update: &MediaUpdate, sending: &mut Sending) -> Result<(), AllocError>
    ensures { OnOk result (sending.new ≡ sending_of (Some update.now) None []) }
{
    fill(&mut sending.simulcast, &update.simulcast)?;
    fill(&mut sending.msid, &update.msid)?;
    fill(&mut sending.cname, &update.cname)?;
    fill(&mut sending.ssrcs, &update.ssrcs_tx)
}

// Layers that were staged are offered, and have no effect until the other side names the line.
fn put_media(media: &AddMedia, sending: &mut Sending) -> Result<(), AllocError>
    ensures { OnOk result (sending.new ≡ sending_of None (Some media.now) []) }
{
    set(&mut sending.simulcast, None);
    fill_some(&mut sending.msid, &media.msid)?;
    fill_some(&mut sending.cname, &media.cname)?;
    fill(&mut sending.ssrcs, &media.ssrcs)
}

/// A line of a received offer, or a declared one, has its mid for all names, and no SSRCs yet.
pub fn bare_sending(alloc: Global, mid: Mid) -> Result<Sending, AllocError>
    ensures { IfOk result (λ sending. sending ≡ BareSending mid) }
{
    let stream_id = Text::from_str(alloc, mid.as_str())?;
    let track_id = Text::from_str(alloc, mid.as_str())?;
    let cname = Text::from_str(alloc, mid.as_str())?;
    Ok(Sending {
        simulcast: None,
        msid: Some(Msid {
            stream_id,
            track_id,
        }),
        cname: Some(cname),
        ssrcs: Seq::empty(alloc),
    })
}

// Puts what is sent on a line: what the media part has of it, or else what was staged with it, without layers.
fn put_sending<M: MediaSession>(
    alloc: Global,
    media: &M,
    changes: &[Change],
    mid: Mid,
    sending: &mut Sending,
) -> Result<(), AllocError>
    ensures { OnOk result (sending.new ≡ sending_of (M.media.line media.now mid) (added_media changes.now mid) mid) }
{
    if let Some(update) = media.line(mid) {
        return put_update(update, sending);
    }
    if let Some(added) = find_added(changes, mid) {
        return put_media(added, sending);
    }
    let bare = bare_sending(alloc, mid)?;
    set(sending, bare);
    Ok(())
}

// Layers as the other side sees them.
fn invert_layers(told: &Option<Simulcast>) -> Result<Option<Simulcast>, AllocError>
    ensures { IfOk result (λ layers. layers ≡ option_map inverted told.now) }
{
    match told {
        None => Ok(None),
        Some(simulcast) => {
            let layers = simulcast.invert()?;
            Ok(Some(layers))
        }
    }
}

// A line that has no layers takes those that the other side names.
fn put_layers(line: &MediaLine, layers: &mut Option<Simulcast>) -> Result<(), AllocError>
    ensures { OnOk result (layers.new ≡ option_or layers.old (option_map inverted line.now.simulcast)) }
{
    if layers.is_some() {
        return Ok(());
    }
    let told = invert_layers(&line.simulcast)?;
    set(layers, told);
    Ok(())
}

fn put_layered<M: MediaSession>(
    alloc: Global,
    media: &M,
    changes: &[Change],
    line: &MediaLine,
    mid: Mid,
    sending: &mut Sending,
) -> Result<(), AllocError>
    ensures { OnOk result (sending.new
        ≡ layered line.now (sending_of (M.media.line media.now mid) (added_media changes.now mid) mid)) }
{
    put_sending(alloc, media, changes, mid, sending)?;
    put_layers(line, &mut sending.simulcast)
}

/// What is sent on the line of a mid once its m-line of the other side is taken.
pub fn find_layered<M: MediaSession>(
    alloc: Global,
    media: &M,
    changes: &[Change],
    line: &MediaLine,
    mid: Mid,
) -> Result<Sending, AllocError>
    ensures { IfOk result (λ sending. sending
        ≡ layered line.now (sending_of (M.media.line media.now mid) (added_media changes.now mid) mid)) }
{
    let mut sending = no_sending(alloc);
    let put = put_layered(alloc, media, changes, line, mid, &mut sending);
    whole(sending, put)
}
