//! Offers of stacks that refuse m-lines without a format.
ghost use Rattle.std.specs.Prelude.{◌≡◌, [], IfOk};
ghost use Rattle.rtc_lines.specs.OfferedFormats.{answer_with_offered};
ghost use Rattle.rtc_lines.specs.Rejecting.{sdp_of_rejecting};
ghost use Rattle.rtc_sdp_reader.specs.Reading.{reading};
ghost use Rattle.rtc_sdp_writer.specs.Placeholders.{filled_sdp};
ghost use Rattle.rtc_peer_core.specs.Meanings.{meanings};
ghost use Rattle.rtc.specs.OtherStacks.{AcceptsForeignText, AnswersLeft, LeavesOf, WritesFilled};

use crate::signalling::accept_offer;
use rtc_peer::{
    Association, CodecConfig, DtlsInstance, IceAgent, Ids, MediaSession, Rtc, RtcError, SdpAnswer,
    SdpOffer,
};
use rtc_wire::Text;
use rtc_wire_drops::release;
use std::alloc::{AllocError, Global};

// What is left of an offer once the live lines are rejected that share no codec with these.
fn reject_lines(
    alloc: Global,
    codecs: &CodecConfig,
    offer: &SdpOffer,
) -> Result<Option<SdpOffer>, RtcError>
    ensures { LeavesOf codecs.now.rows offer.now.0 result }
{
    let mids = offer.lines_without_codec(alloc, codecs)?;
    let left = offer.rejecting(alloc, mids.as_slice())?;
    Ok(left)
}

fn fill_text(answer: &SdpAnswer, offer: &SdpOffer) -> Result<Text, AllocError>
    ensures { IfOk result (λ text. text ≡ filled_sdp (answer_with_offered answer.now.0 offer.now.0)) }
{
    let filled = answer.with_offered_formats(offer)?;
    let text = filled.to_sdp_string_with_formats()?;
    Ok(Text::new(text))
}

// The text of the answer to an offer, with a format on each m-line.
fn write_filled(offer: &SdpOffer, answer: SdpAnswer) -> Result<Option<Text>, RtcError>
    ensures { WritesFilled offer.now.0 answer.0 result }
{
    match fill_text(&answer, offer) {
        Ok(text) => release(answer, Ok(Some(text))),
        Err(_) => release(answer, Err(RtcError::Alloc)),
    }
}

fn answer_left<I: IceAgent, D: DtlsInstance, S: Association, M: MediaSession, N: Ids>(
    alloc: Global,
    peer: &mut Rtc<I, D, S, M, N>,
    offer: &SdpOffer,
) -> Result<Option<Text>, RtcError>
    ensures answers { AnswersLeft (meanings I.ice D.dtls S.association M.media N.ids)
        offer.now.0 peer.old.core result peer.new.core }
    ensures connection { peer.new.transport ≡ peer.old.transport }
{
    let left = reject_lines(alloc, peer.codec_config(), offer)?;
    let Some(left) = left else {
        return Ok(None);
    };
    match accept_offer(peer, left) {
        Ok(answer) => write_filled(offer, answer),
        Err(error) => Err(error),
    }
}

/// Accepts the offer in a text of another stack, and returns the text of the answer, as `accept_offer_text` does but for
/// m-lines without a format, which browsers refuse. Each live line that shares no codec with the peer is rejected, and a line
/// with port 0 has the formats that were offered, whose meaning is ignored (RFC 3264, section 6).
///
/// If no live line would be left, it returns None, and the peer is unchanged. `Alloc` may be returned after the offer was
/// accepted.
pub fn accept_foreign_offer_text<
    I: IceAgent,
    D: DtlsInstance,
    S: Association,
    M: MediaSession,
    N: Ids,
>(alloc: Global, peer: &mut Rtc<I, D, S, M, N>, text: &str) -> Result<Option<Text>, RtcError>
    ensures accepts { AcceptsForeignText (meanings I.ice D.dtls S.association M.media N.ids)
        (reading text.now) peer.old.core result peer.new.core }
    ensures connection { peer.new.transport ≡ peer.old.transport }
{
    match SdpOffer::from_sdp_string(alloc, text) {
        Ok(offer) => {
            let answered = answer_left(alloc, peer, &offer);
            release(offer, answered)
        }
        Err(error) => Err(RtcError::from(error)),
    }
}
