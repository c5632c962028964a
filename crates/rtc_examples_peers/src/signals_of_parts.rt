//! Offers and answers of peers over any parts.
use crate::hosts::candidate;
use crate::layers::{Layers, simulcast};
use crate::reply::Reply;
use crate::signals::Signals;
use crate::texts::{Texts, write_offer};
use rtc_examples_cases::{is_ok, is_true};
use rtc_peer::{
    Association, Candidate, Direction, DtlsInstance, IceAgent, Ids, MediaKind, MediaSession, Rtc,
    RtcError, SdpOffer, SdpPendingOffer,
};
use rtc_wire_drops::release;
use std::alloc::{AllocError, Global};

// Whether an address was taken.
fn is_lent(added: Result<Option<&Candidate>, AllocError>) -> bool {
    match added {
        Ok(taken) => taken.is_some(),
        Err(_) => false,
    }
}

fn offer_channels<I: IceAgent, D: DtlsInstance, S: Association, M: MediaSession, N: Ids>(
    left: &mut Rtc<I, D, S, M, N>,
    alloc: Global,
    channels: u32,
) -> Result<Option<(SdpOffer, SdpPendingOffer)>, RtcError> {
    let mut api = left.sdp_api();
    for _ in 0..channels {
        api.add_channel(String::new(alloc))?;
    }
    Ok(api.apply()?)
}

fn answer<I: IceAgent, D: DtlsInstance, S: Association, M: MediaSession, N: Ids>(
    right: &mut Rtc<I, D, S, M, N>,
    alloc: Global,
    offer: &str,
) -> Result<String, RtcError> {
    let offer = SdpOffer::from_sdp_string(alloc, offer)?;
    let answer = right.sdp_api().accept_offer(offer)?;
    let text = answer.to_sdp_string();
    Ok(release(answer, text)?)
}

// Whether an offer of channels was made, and its answer was accepted.
fn negotiate<I: IceAgent, D: DtlsInstance, S: Association, M: MediaSession, N: Ids>(
    left: &mut Rtc<I, D, S, M, N>,
    right: &mut Rtc<I, D, S, M, N>,
    alloc: Global,
    channels: u32,
    texts: &mut Texts,
) -> Result<bool, RtcError> {
    match offer_channels(left, alloc, channels)? {
        Some((offer, token)) => {
            let told = is_ok(texts.tell_offer(offer));
            let answered = answer(right, alloc, texts.offer.as_str());
            match texts.read_answer(alloc, answered) {
                Ok(answer) => Ok(told & is_ok(left.sdp_api().accept_answer(token, answer))),
                Err(error) => release(token, Err(error)),
            }
        }
        None => Ok(false),
    }
}

impl<I: IceAgent, D: DtlsInstance, S: Association, M: MediaSession, N: Ids> Signals
    for Rtc<I, D, S, M, N> {
    fn add_host(&mut self, alloc: Global, number: u8) -> bool {
        match candidate(alloc, number) {
            Ok(candidate) => is_lent(self.add_local_candidate(candidate)),
            Err(_) => false,
        }
    }

    fn answer(&mut self, alloc: Global, offer: &str) -> Reply {
        Reply::new(alloc, answer(self, alloc, offer))
    }

    fn agree(&mut self, other: &mut Self, alloc: Global, channels: u32, texts: &mut Texts) -> bool {
        is_true(negotiate(self, other, alloc, channels, texts))
    }

    fn offer_line(&mut self, alloc: Global, layers: Layers) -> Result<String, AllocError> {
        let layers = simulcast(alloc, layers)?;
        let mut api = self.sdp_api();
        api.add_media(
            MediaKind::Video,
            Direction::SendOnly,
            None,
            None,
            Some(layers),
        )?;
        write_offer(alloc, api.apply()?)
    }
}
