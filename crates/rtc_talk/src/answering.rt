//! Descriptions of the other side.
use rtc::{
    PlainRtc, RtcError, SdpAnswer, SdpOffer, SdpPendingOffer, accept_answer_text,
    accept_crossed_offer, accept_foreign_offer_text, accept_offer_text,
};
use std::alloc::{AllocError, Global};

fn print_answer(alloc: Global, text: &str) -> Result<String, AllocError> {
    format!(in alloc; "answer\n{text}.")
}

/// Answers an offer as it is.
pub fn accept(alloc: Global, peer: &mut PlainRtc, text: &str) -> Result<String, RtcError> {
    let answer = accept_offer_text(alloc, peer, text)?;
    Ok(print_answer(alloc, answer.as_str())?)
}

/// Answers an offer without the lines that share no codec.
pub fn accept_foreign(alloc: Global, peer: &mut PlainRtc, text: &str) -> Result<String, RtcError> {
    match accept_foreign_offer_text(alloc, peer, text)? {
        Some(answer) => Ok(print_answer(alloc, answer.as_str())?),
        None => Ok(String::from_str(alloc, "no line left")?),
    }
}

fn print_crossed(alloc: Global, answer: Option<SdpAnswer>) -> Result<String, AllocError> {
    match answer {
        Some(answer) => {
            let text = answer.to_sdp_string_with_formats()?;
            print_answer(alloc, text.as_str())
        }
        None => String::from_str(alloc, "glare"),
    }
}

/// Answers an offer that may have crossed one of this side.
pub fn accept_crossed(
    alloc: Global,
    peer: &mut PlainRtc,
    polite: bool,
    pending: &mut Option<SdpPendingOffer>,
    text: &str,
) -> Result<String, RtcError> {
    let offer = SdpOffer::from_sdp_string(alloc, text)?;
    let answer = accept_crossed_offer(peer, polite, pending, offer)?;
    Ok(print_crossed(alloc, answer)?)
}

/// Takes the answer to the pending offer.
pub fn take(
    alloc: Global,
    peer: &mut PlainRtc,
    pending: &mut Option<SdpPendingOffer>,
    text: &str,
) -> Result<String, RtcError> {
    let Some(token) = pending.take() else {
        return Ok(String::from_str(alloc, "no offer is pending")?);
    };
    accept_answer_text(alloc, peer, token, text)?;
    Ok(String::from_str(alloc, "finished")?)
}
