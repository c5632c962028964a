//! Offers that cross.
ghost use Rattle.std.specs.Prelude.{◌≡◌, []};
ghost use Rattle.std.specs.Bool.{OnFalse, OnTrue};
ghost use Rattle.rtc_peer.specs.Described.{sdp_of_answer};
ghost use Rattle.rtc_peer_core.specs.Acceptances.{AcceptsOffer};
ghost use Rattle.rtc_peer_core.specs.Meanings.{meanings};
ghost use Rattle.rtc_peer_core.specs.declared.rtc_error.RtcError.TheVariants.{Glare};
ghost use Rattle.rtc.specs.Crossing.{pending_behind, MeetsCrossed, MeetsOffer, TakesBack};

use rtc_peer::{
    Association, DtlsInstance, IceAgent, Ids, MediaSession, Rtc, RtcError, SdpAnswer, SdpOffer,
    SdpPendingOffer,
};

// A polite peer rolls its pending offer back.
fn withdraw<I: IceAgent, D: DtlsInstance, S: Association, M: MediaSession, N: Ids>(
    peer: &mut Rtc<I, D, S, M, N>,
    polite: bool,
    pending: &mut Option<SdpPendingOffer>,
)
    ensures withdraws { TakesBack polite pending.old peer.old.core peer.new.core }
    ensures pending { pending.new ≡ pending_behind polite pending.old }
    ensures connection { peer.new.transport ≡ peer.old.transport }
{
    if polite {
        if let Some(token) = pending.take() {
            let _invalidated = peer.sdp_api().rollback(token);
        }
    }
}

fn is_glare(error: &RtcError) -> bool
    ensures glare { OnTrue result (error.now ≡ Glare) }
    ensures other { OnFalse result (error.now ≡ Glare → ⊥) }
{
    match error {
        RtcError::Glare => true,
        _ => false,
    }
}

// An impolite peer refuses an offer that crosses its own.
fn meet<I: IceAgent, D: DtlsInstance, S: Association, M: MediaSession, N: Ids>(
    peer: &mut Rtc<I, D, S, M, N>,
    offer: SdpOffer,
) -> Result<Option<SdpAnswer>, RtcError>
    ensures meets { MeetsOffer (meanings I.ice D.dtls S.association M.media N.ids)
        offer.0 peer.old.core result peer.new.core }
    ensures connection { peer.new.transport ≡ peer.old.transport }
{
    match peer.sdp_api().accept_offer(offer) {
        Ok(answer) => Ok(Some(answer)),
        Err(error) if is_glare(&error) => Ok(None),
        Err(error) => Err(error),
    }
}

/// Accepts an offer of the other side that may have crossed one of this side, whose token is `pending` (W3C webrtc-pc,
/// section 10). `polite` is the role that `set_polite` gave the peer.
///
/// Returns the answer, or None on glare at an impolite peer: then the other side takes its offer back and answers. A
/// polite peer's own offer is rolled back; offer again.
pub fn accept_crossed_offer<I: IceAgent, D: DtlsInstance, S: Association, M: MediaSession, N: Ids>(
    peer: &mut Rtc<I, D, S, M, N>,
    polite: bool,
    pending: &mut Option<SdpPendingOffer>,
    offer: SdpOffer,
) -> Result<Option<SdpAnswer>, RtcError>
    ensures meets { MeetsCrossed (meanings I.ice D.dtls S.association M.media N.ids)
        polite pending.old offer.0 peer.old.core result peer.new.core }
    ensures pending { pending.new ≡ pending_behind polite pending.old }
    ensures connection { peer.new.transport ≡ peer.old.transport }
{
    withdraw(peer, polite, pending);
    meet(peer, offer)
}
