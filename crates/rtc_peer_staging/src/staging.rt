//! Lines and channels that are staged.
ghost use Rattle.std.specs.Prelude.{◌≡◌, IfOk, OnOk, OnErr};
ghost use Rattle.rtc_parts.specs.Draws.{Later};
ghost use Rattle.rtc_peer_core.specs.Sources.{has_source, after_pairs, pair_count};
ghost use Rattle.rtc_peer_staging.specs.StagedNames.{given_name, drawn_msid, drawn_media, after_names};
ghost use Rattle.rtc_peer_core.specs.Calls.{AddsMedia, AddsChannel, StagesRestart};
ghost use Rattle.rtc_peer_core.specs.Staging.{with_restart};
ghost use Rattle.rtc_peer_core.specs.Meanings.{meanings};

use rtc_change::AddMedia;
use rtc_channels::ChannelError;
use rtc_parts::{Association, DtlsInstance, IceAgent, Ids, MediaSession};
use rtc_peer_core::{Peer, RtcError, Staged};
use rtc_peer_sdp::{count_pairs, draw_first_pairs, draw_name, keep_name, make_creds};
use rtc_sdp_values::{Direction, IceCreds, MediaKind, Mid, Msid, Simulcast};
use rtc_wire::{ChannelConfig, ChannelId, TryCopy};
use std::alloc::{AllocError, Global};

// The names of a stream and of its track: those that are given, or else drawn ones.
#[tactic(auto, using(rtc_parts::proofs::LaterLemmas::later_none, rtc_parts::proofs::LaterLemmas::later_join))]
fn draw_msid<N: Ids>(
    alloc: Global,
    ids: &mut N,
    stream_id: Option<String>,
    track_id: Option<String>,
) -> Result<Msid, AllocError>
    ensures msid { IfOk result (λ msid. msid ≡ drawn_msid N.ids (given_name stream_id) (given_name track_id) ids.old) }
    ensures after { OnOk result (ids.new ≡ after_names N.ids (given_name stream_id) (given_name track_id) ids.old) }
    ensures later { Later N.ids ids.old ids.new }
{
    let stream = keep_name(alloc, stream_id)?;
    let stream_id = draw_name(alloc, ids, "s", stream)?;
    let track = keep_name(alloc, track_id)?;
    let track_id = draw_name(alloc, ids, "t", track)?;
    Ok(Msid {
        stream_id,
        track_id,
    })
}

// A media line of a mid: its names and its SSRCs are drawn.
#[tactic(auto, using(rtc_parts::proofs::LaterLemmas::later_none, rtc_parts::proofs::LaterLemmas::later_join))]
fn make_media<M: MediaSession, N: Ids>(
    alloc: Global,
    ids: &mut N,
    media: &M,
    mid: Mid,
    kind: MediaKind,
    dir: Direction,
    stream_id: Option<String>,
    track_id: Option<String>,
    simulcast: Option<Simulcast>,
) -> Result<AddMedia, AllocError>
    ensures media { IfOk result (λ made. made ≡ drawn_media N.ids (has_source M.media media.now) mid (record {
      kind = kind;
      dir = dir;
      stream = given_name stream_id;
      track = given_name track_id;
      simulcast = simulcast;
    }) ids.old) }
    ensures after { OnOk result (ids.new ≡ after_pairs N.ids (has_source M.media media.now) kind (pair_count simulcast)
        (after_names N.ids (given_name stream_id) (given_name track_id) ids.old)) }
    ensures later { Later N.ids ids.old ids.new }
{
    let msid = draw_msid(alloc, ids, stream_id, track_id)?;
    let cname = msid.track_id.copy()?;
    let count = count_pairs(&simulcast);
    let ssrcs = draw_first_pairs(alloc, ids, media, kind, count)?;
    Ok(AddMedia {
        mid,
        cname,
        msid,
        kind,
        dir,
        ssrcs,
        simulcast,
    })
}

/// Stages a media line, and returns its mid.
#[tactic(auto, using(rtc_parts::proofs::LaterLemmas::later_none, rtc_parts::proofs::LaterLemmas::later_join))]
pub fn stage_media<I: IceAgent, D: DtlsInstance, S: Association, M: MediaSession, N: Ids>(
    peer: &mut Peer<I, D, S, M, N>,
    kind: MediaKind,
    dir: Direction,
    stream_id: Option<String>,
    track_id: Option<String>,
    simulcast: Option<Simulcast>,
) -> Result<Mid, AllocError>
    ensures { AddsMedia (meanings I.ice D.dtls S.association M.media N.ids) peer.old (record {
      kind = kind;
      dir = dir;
      stream = given_name stream_id;
      track = given_name track_id;
      simulcast = simulcast;
    }) result peer.new }
{
    peer.lines.expect_look_up();
    let mid = peer.staged.draw_mid(&mut peer.ids, &peer.lines)?;
    let media = make_media(
        peer.alloc,
        &mut peer.ids,
        &peer.media,
        mid,
        kind,
        dir,
        stream_id,
        track_id,
        simulcast,
    )?;
    peer.staged.push_media(media)?;
    Ok(mid)
}

/// Stages a channel, with the m-line of data channels if there is none, and returns its number.
#[tactic(auto, using(rtc_parts::proofs::LaterLemmas::later_none))]
pub fn stage_channel<I: IceAgent, D: DtlsInstance, S: Association, M: MediaSession, N: Ids>(
    peer: &mut Peer<I, D, S, M, N>,
    config: ChannelConfig,
) -> Result<ChannelId, RtcError>
    ensures { AddsChannel (meanings I.ice D.dtls S.association M.media N.ids) peer.old config result peer.new }
{
    let made = peer
        .staged
        .push_channel(&mut peer.ids, &peer.lines, &mut peer.channels, config);
    match made {
        Ok(id) => Ok(id),
        Err(ChannelError::BadChannel) => Err(RtcError::BadChannel),
        Err(ChannelError::Alloc) => Err(RtcError::Alloc),
    }
}

// Stages a restart of ICE with these credentials.
fn stage_creds(
    alloc: Global,
    creds: &IceCreds,
    keeps: bool,
    staged: &mut Staged,
) -> Result<(), AllocError>
    ensures ok { OnOk result (staged.new ≡ with_restart creds.now keeps staged.old) }
    ensures err { OnErr result (staged.new ≡ staged.old) }
{
    let copied = creds.copy()?;
    staged.push_restart(alloc, copied, keeps)
}

/// Stages an ICE restart with drawn credentials, in place of a staged one, and returns them.
#[tactic(auto, using(rtc_parts::proofs::LaterLemmas::later_none, rtc_parts::proofs::LaterLemmas::later_once))]
pub fn stage_restart<I: IceAgent, D: DtlsInstance, S: Association, M: MediaSession, N: Ids>(
    peer: &mut Peer<I, D, S, M, N>,
    keeps: bool,
) -> Result<IceCreds, AllocError>
    ensures { StagesRestart (meanings I.ice D.dtls S.association M.media N.ids) peer.old keeps result peer.new }
{
    let alloc = peer.alloc;
    let n = peer.ids.draw();
    let creds = make_creds(alloc, n)?;
    match stage_creds(alloc, &creds, keeps, &mut peer.staged) {
        Ok(()) => Ok(creds),
        Err(error) => {
            drop(creds);
            Err(error)
        }
    }
}
