//! What lines ask of a peer.
use crate::answering::{accept, accept_crossed, accept_foreign, take};
use crate::offering::stage_all;
use crate::quiet::Quiet;
use crate::rows::print_rows;
use hex::decode;
use rtc::{Moment, PlainRtc, RtcError, SdpPendingOffer, drive};
use std::alloc::{AllocError, Global};

// The text that digits in hex encode; nothing if they encode none.
fn decode_text(alloc: Global, digits: &str) -> Option<String> {
    match decode(alloc, digits) {
        Ok(bytes) => match String::from_utf8(bytes) {
            Ok(text) => Some(text),
            Err(_) => None,
        },
        Err(_) => None,
    }
}

// Stages changes and offers them.
fn offer(
    alloc: Global,
    peer: &mut PlainRtc,
    pending: &mut Option<SdpPendingOffer>,
    changes: &str,
) -> Result<String, RtcError> {
    let mut api = peer.sdp_api();
    let told = stage_all(alloc, &mut api, changes)?;
    match api.apply()? {
        Some((offer, token)) => {
            *pending = Some(token);
            let text = offer.to_sdp_string_with_formats()?;
            Ok(format!(in alloc; "offer{}\n{}.", told.as_str(), text.as_str())?)
        }
        None => Ok(format!(in alloc; "no offer{}", told.as_str())?),
    }
}

// Stages changes, and returns what an offer of them would lack.
fn preview(alloc: Global, peer: &mut PlainRtc, changes: &str) -> Result<String, RtcError> {
    let mut api = peer.sdp_api();
    stage_all(alloc, &mut api, changes)?;
    let bare = api.lines_without_codec(alloc)?;
    let live = api.offers_live_line();
    Ok(format!(in alloc; "without codec {}, live {live}", bare.len())?)
}

// Gives a description to a peer.
fn give(
    alloc: Global,
    peer: &mut PlainRtc,
    pending: &mut Option<SdpPendingOffer>,
    word: &str,
    text: &str,
) -> Result<String, RtcError> {
    match word {
        "accept" => accept(alloc, peer, text),
        "foreign" => accept_foreign(alloc, peer, text),
        "polite" => accept_crossed(alloc, peer, true, pending, text),
        "impolite" => accept_crossed(alloc, peer, false, pending, text),
        "take" => take(alloc, peer, pending, text),
        _ => Ok(format!(in alloc; "unknown {word}")?),
    }
}

fn ask(
    alloc: Global,
    peer: &mut PlainRtc,
    pending: &mut Option<SdpPendingOffer>,
    word: &str,
    rest: &str,
) -> Result<String, RtcError> {
    match word {
        "rows" => Ok(print_rows(alloc, peer.lines())?),
        "offer" => offer(alloc, peer, pending, rest),
        "preview" => preview(alloc, peer, rest),
        _ => match decode_text(alloc, rest) {
            Some(text) => give(alloc, peer, pending, word, text.as_str()),
            None => Ok(String::from_str(alloc, "no text")?),
        },
    }
}

/// Performs a line, and drives the peer.
pub fn perform(
    alloc: Global,
    peer: &mut PlainRtc,
    pending: &mut Option<SdpPendingOffer>,
    word: &str,
    rest: &str,
) -> Result<String, RtcError> {
    let told = ask(alloc, peer, pending, word, rest);
    let mut quiet = Quiet { events: 0 };
    drive(peer, Moment::FAR_PAST, &mut quiet)?;
    told
}
