//! Staged changes that are applied.
ghost use Rattle.std.specs.Prelude.{◌≡◌, ◌+◌, ◌<◌, ◌^◌, ◌-◌, not, IfOk, OnOk, OnErr, length};
ghost use Rattle.rtc_change.specs.PendingOffer.{added_mids, do_offer};
ghost use Rattle.rtc_peer_core.specs.Calls.{Applies, after_channels_alone, control_for, ids_after_offer};
ghost use Rattle.rtc_peer_core.specs.SdpHalves.{tells_half as TellsHalf};
ghost use Rattle.rtc_peer_negotiation.specs.ToldHalves.{halves_told, init_of_told, snap_of_told};
ghost use Rattle.rtc_peer_core.specs.MadeSdp.{offer_head, offer_sdp};
ghost use Rattle.rtc_peer_core.specs.Meanings.{meanings};
ghost use Rattle.rtc_peer_core.specs.Stance.{stance_of};

use crate::confirming::confirm_channels;
use crate::following::take_control;
use crate::starting_sctp::has_app;
use crate::telling_init::local_init;
use rtc_change::{Change, SdpPendingOffer, find_restart};
use rtc_parts::{Association, Dtls, DtlsInstance, IceAgent, Ids, MediaSession};
use rtc_peer_core::{Peer, SdpHead, Staged, count_lines};
use rtc_peer_sdp::{make_head, make_sdp, tell_offered};
use rtc_sctp::RtcSctp;
use rtc_sctp_values::SctpInitData;
use rtc_sdp_values::{Sdp, Setup};
use rtc_wire::Text;
use std::alloc::AllocError;

// Whether changes make an offer.
fn makes_offer(changes: &[Change]) -> bool
    ensures { result ≡ do_offer changes.now }
{
    for change in changes {
        if change.is_offered() {
            return true;
        }
    }
    false
}

// Whether what is staged makes an offer.
fn stages_offer(staged: &Staged) -> bool
    ensures { result ≡ do_offer staged.now }
{
    makes_offer(staged.as_slice())
}

// Applies channels alone, which no offer carries. Nothing happens if nothing is staged.
fn apply_channels<I, D, S: Association, M, N>(peer: &mut Peer<I, D, S, M, N>)
    ensures { peer.new ≡ after_channels_alone peer.old.staged peer.old }
{
    if peer.staged.is_empty() {
        return;
    }
    let changes = peer.staged.take(peer.alloc);
    confirm_channels(&mut peer.channels, changes);
    peer.counter = peer.counter.wrapping_add(1);
    peer.outstanding = false;
}

// What the offer of a peer carries of it.
fn make_offer_head<I: IceAgent, D: DtlsInstance, S: Association, M: MediaSession, N: Ids>(
    peer: &Peer<I, D, S, M, N>,
    init: Option<Text>,
) -> Result<SdpHead, AllocError>
    ensures { IfOk result (λ head. head ≡ offer_head (stance_of (meanings I.ice D.dtls S.association M.media N.ids) peer.now) init) }
{
    make_head(
        peer.alloc,
        peer.session_id,
        &peer.ice,
        &peer.dtls,
        Setup::ActPass,
        find_restart(peer.staged.as_slice()),
        peer.sctp.local_max_message_size(),
        init,
    )
}

// The offer of what is staged, with this text of a chunk for the start of the association.
fn make_offer<I: IceAgent, D: DtlsInstance, S: Association, M: MediaSession, N: Ids>(
    peer: &Peer<I, D, S, M, N>,
    init: Option<Text>,
) -> Result<Sdp, AllocError>
    ensures { IfOk result (λ offer. offer ≡ offer_sdp (stance_of (meanings I.ice D.dtls S.association M.media N.ids) peer.now) init) }
{
    count_lines(&peer.lines, peer.staged.count_added())?;
    let told = tell_offered(
        peer.alloc,
        &peer.media,
        &peer.formats,
        peer.lines.rows(),
        peer.staged.as_slice(),
    )?;
    let head = make_offer_head(peer, init)?;
    make_sdp(peer.alloc, head, told)
}

// Whether this side is controlling, if that is still open.
fn control_of_offer<I: IceAgent, D: DtlsInstance>(ice: &I, dtls: &Dtls<D>) -> Option<bool>
    ensures { result ≡ control_for dtls.now.active (not (I.ice.settings ice.now).lite) }
{
    match dtls.is_active() {
        None => Some(!ice.ice_lite()),
        Some(_) => None,
    }
}

// Whether the offer of what is staged carries this side's SNAP INIT chunk.
fn tells_half<I: IceAgent, D: DtlsInstance, S: Association, M: MediaSession, N: Ids>(
    peer: &Peer<I, D, S, M, N>,
) -> bool
    ensures { result ≡ TellsHalf (stance_of (meanings I.ice D.dtls S.association M.media N.ids) peer.now) }
{
    if peer.sctp.is_inited() || !peer.sctp.snap_enabled() {
        return false;
    }
    has_app(peer.lines.rows()) || peer.staged.contains_add_app()
}

// The chunks with which the offer of what is staged carries this side's, which is drawn if it is missing; None if it carries none.
fn draw_half<I: IceAgent, D: DtlsInstance, S: Association, M: MediaSession, N: Ids>(
    peer: &mut Peer<I, D, S, M, N>,
) -> Result<Option<SctpInitData>, AllocError>
    ensures halves { IfOk result (λ halves. halves
        ≡ halves_told (meanings I.ice D.dtls S.association M.media N.ids) peer.old) }
    ensures after { OnOk result (peer.new.ids ≡ ids_after_offer (meanings I.ice D.dtls S.association M.media N.ids) peer.old) }
    ensures err { OnErr result (peer.new.ids ≡ peer.old.ids) }
    ensures others { peer.new ≡ record peer.old { ids = peer.new.ids } }
{
    if !tells_half(peer) {
        return Ok(None);
    }
    match peer.sctp.draw_snap_init_data(&mut peer.ids) {
        Ok(halves) => Ok(Some(halves)),
        Err(error) => Err(error),
    }
}

// The text that the offer carries: this side's SNAP INIT chunk, or, once the association was started by both chunks,
// the one that it was started with.
fn tell_offered_init<S: Association>(
    sctp: &RtcSctp<S>,
    told: &Option<SctpInitData>,
) -> Result<Option<Text>, AllocError>
    ensures { IfOk result (λ init. init ≡ init_of_told sctp.now.snap told.now) }
{
    match told {
        Some(halves) => local_init(Some(halves)),
        None => local_init(sctp.begun_snap_init_data()),
    }
}

// Keeps the chunk that was carried.
fn keep_told<S: Association>(sctp: &mut RtcSctp<S>, told: Option<SctpInitData>)
    ensures { sctp.new ≡ record sctp.old { snap = snap_of_told sctp.old.snap told } }
{
    if let Some(halves) = told {
        sctp.keep_snap_init_data(halves);
    }
}

/// Makes the offer of what is staged, with its token.
///
/// None if nothing but channels is staged: these are confirmed. None, and nothing happens, if nothing is staged.
pub fn apply_staged<I: IceAgent, D: DtlsInstance, S: Association, M: MediaSession, N: Ids>(
    peer: &mut Peer<I, D, S, M, N>,
) -> Result<Option<(Sdp, SdpPendingOffer)>, AllocError>
    ensures { Applies (meanings I.ice D.dtls S.association M.media N.ids) peer.old result peer.new }
{
    if !stages_offer(&peer.staged) {
        apply_channels(peer);
        return Ok(None);
    }
    let told = match draw_half(peer) {
        Ok(told) => told,
        Err(error) => return Err(error),
    };
    let init = match tell_offered_init(&peer.sctp, &told) {
        Ok(init) => init,
        Err(error) => {
            drop(told);
            return Err(error);
        }
    };
    let offer = match make_offer(peer, init) {
        Ok(offer) => offer,
        Err(error) => {
            drop(told);
            return Err(error);
        }
    };
    keep_told(&mut peer.sctp, told);
    let control = control_of_offer(&peer.ice, &peer.dtls);
    take_control(&mut peer.ice, control);
    let id = peer.counter;
    let changes = peer.staged.take(peer.alloc);
    let undo = peer.undo.take(peer.alloc);
    peer.counter = id.wrapping_add(1);
    peer.outstanding = true;
    let says_init = offer.sctp_init().is_some();
    let token = SdpPendingOffer::new(id, changes, says_init, undo);
    Ok(Some((offer, token)))
}
