//! Offers and answers as the texts that signalling carries.
ghost use Rattle.std.specs.Prelude.{◌≡◌, []};
ghost use Rattle.rtc_sdp_reader.specs.Reading.{reading};
ghost use Rattle.rtc_peer.specs.Described.{sdp_of_answer};
ghost use Rattle.rtc_peer_core.specs.Acceptances.{AcceptsAnswer, AcceptsOffer};
ghost use Rattle.rtc_peer_core.specs.Meanings.{meanings};
ghost use Rattle.rtc.specs.Texts.{AcceptsAnswerText, AcceptsOfferText, AnswersOffer, WritesAnswer};

use rtc_peer::{
    Association, DtlsInstance, IceAgent, Ids, MediaSession, Rtc, RtcError, SdpAnswer, SdpOffer,
    SdpPendingOffer,
};
use rtc_wire::Text;
use rtc_wire_drops::release;
use std::alloc::Global;

pub(crate) fn accept_offer<I: IceAgent, D: DtlsInstance, S: Association, M: MediaSession, N: Ids>(
    peer: &mut Rtc<I, D, S, M, N>,
    offer: SdpOffer,
) -> Result<SdpAnswer, RtcError>
    ensures accepts { AcceptsOffer (meanings I.ice D.dtls S.association M.media N.ids)
        (record peer.old.core { staged = []; undo = [] }) offer.0 (sdp_of_answer result) peer.new.core }
    ensures connection { peer.new.transport ≡ peer.old.transport }
{
    peer.sdp_api().accept_offer(offer)
}

fn accept_answer<I: IceAgent, D: DtlsInstance, S: Association, M: MediaSession, N: Ids>(
    peer: &mut Rtc<I, D, S, M, N>,
    pending: SdpPendingOffer,
    answer: SdpAnswer,
) -> Result<(), RtcError>
    ensures accepts { AcceptsAnswer (meanings I.ice D.dtls S.association M.media N.ids)
        (record peer.old.core { staged = []; undo = [] }) pending answer.0 result peer.new.core }
    ensures connection { peer.new.transport ≡ peer.old.transport }
{
    peer.sdp_api().accept_answer(pending, answer)
}

// The text of an answer.
fn write_answer(answer: SdpAnswer) -> Result<Text, RtcError>
    ensures { WritesAnswer answer.0 result }
{
    match answer.to_sdp_string() {
        Ok(text) => release(answer, Ok(Text::new(text))),
        Err(_) => release(answer, Err(RtcError::Alloc)),
    }
}

// Accepts an offer, and returns the text of the answer.
fn answer_offer<I: IceAgent, D: DtlsInstance, S: Association, M: MediaSession, N: Ids>(
    peer: &mut Rtc<I, D, S, M, N>,
    offer: SdpOffer,
) -> Result<Text, RtcError>
    ensures answers { AnswersOffer (meanings I.ice D.dtls S.association M.media N.ids)
        offer.0 peer.old.core result peer.new.core }
    ensures connection { peer.new.transport ≡ peer.old.transport }
{
    match accept_offer(peer, offer) {
        Ok(answer) => write_answer(answer),
        Err(error) => Err(error),
    }
}

/// Accepts the offer in a text, and returns the text of the answer (RFC 8829, section 5.3).
///
/// A text that is no offer leaves the peer unchanged. `Alloc` may be returned after the offer was accepted.
pub fn accept_offer_text<I: IceAgent, D: DtlsInstance, S: Association, M: MediaSession, N: Ids>(
    alloc: Global,
    peer: &mut Rtc<I, D, S, M, N>,
    text: &str,
) -> Result<Text, RtcError>
    ensures accepts { AcceptsOfferText (meanings I.ice D.dtls S.association M.media N.ids)
        (reading text.now) peer.old.core result peer.new.core }
    ensures connection { peer.new.transport ≡ peer.old.transport }
{
    match SdpOffer::from_sdp_string(alloc, text) {
        Ok(offer) => answer_offer(peer, offer),
        Err(error) => Err(RtcError::from(error)),
    }
}

/// Accepts the answer in a text; the token is consumed, also if the text is refused (RFC 8829, section 5.11).
///
/// A text that is no answer leaves the peer unchanged.
pub fn accept_answer_text<I: IceAgent, D: DtlsInstance, S: Association, M: MediaSession, N: Ids>(
    alloc: Global,
    peer: &mut Rtc<I, D, S, M, N>,
    pending: SdpPendingOffer,
    text: &str,
) -> Result<(), RtcError>
    ensures accepts { AcceptsAnswerText (meanings I.ice D.dtls S.association M.media N.ids)
        pending (reading text.now) peer.old.core result peer.new.core }
    ensures connection { peer.new.transport ≡ peer.old.transport }
{
    match SdpAnswer::from_sdp_string(alloc, text) {
        Ok(answer) => accept_answer(peer, pending, answer),
        Err(error) => release(pending, Err(RtcError::from(error))),
    }
}
