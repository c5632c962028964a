//! Offers and answers of a peer that C keeps.
ghost use Rattle.std.specs.Prelude.{◌≡◌, []};
ghost use Rattle.rtc_peer_core.specs.Acceptances.{AcceptsAnswer};
ghost use Rattle.rtc_peer_core.specs.RollingBack.{RollsBack};
ghost use Rattle.rtc_sdp_reader.specs.Reading.{reading};
ghost use Rattle.rtc.specs.PlainPeers.{memory_parts};
ghost use Rattle.rtc_c_handle.specs.Negotiation.{TakesOffer, Offers, SpendsToken, TakesAnswer, RollsOfferBack, WritesOffer};

use crate::staging::make_offer;
use crate::{Held, Made, Status};
use rtc::{PlainRtc, RtcError, SdpAnswer, SdpOffer, SdpPendingOffer, accept_offer_text};
use rtc_wire::Text;
use rtc_wire_drops::release;
use std::alloc::Global;

// Gives a peer the answer to its offer.
fn give_answer(
    rtc: &mut PlainRtc,
    token: SdpPendingOffer,
    answer: SdpAnswer,
) -> Result<(), RtcError>
    ensures accepts { AcceptsAnswer memory_parts (record rtc.old.core { staged = []; undo = [] }) token answer.0 result rtc.new.core }
    ensures connection { rtc.new.transport ≡ rtc.old.transport }
{
    rtc.sdp_api().accept_answer(token, answer)
}

// Rolls the offer of a peer back.
fn take_back(rtc: &mut PlainRtc, token: SdpPendingOffer) -> Result<(), RtcError>
    ensures rolls_back { RollsBack (record rtc.old.core { staged = []; undo = [] }) token result rtc.new.core }
    ensures connection { rtc.new.transport ≡ rtc.old.transport }
{
    rtc.sdp_api().rollback(token)
}

impl Held {
    /// Accepts the offer of a text, and keeps the text of the answer (RFC 8829, section 5.3).
    ///
    /// A text that is no offer leaves all as it was.
    pub fn accept_offer(&mut self, alloc: Global, text: &str) -> Result<(), RtcError>
        ensures answers { TakesOffer (reading text.now) self.old result self.new }
        ensures token { self.new.token ≡ self.old.token }
        ensures wanted { self.new.wanted ≡ self.old.wanted }
        ensures output { self.new.output ≡ self.old.output }
        ensures connection { self.new.rtc.transport ≡ self.old.rtc.transport }
    {
        match accept_offer_text(alloc, &mut self.rtc, text) {
            Ok(answer) => {
                self.text = answer;
                Ok(())
            }
            Err(error) => Err(error),
        }
    }

    // Gives the answer to the offer whose token is kept, and returns whether there was one.
    fn finish(&mut self, answer: SdpAnswer) -> Result<bool, RtcError>
        ensures spends { SpendsToken (λ p token r q. AcceptsAnswer memory_parts p token answer.0 r q) self.old result self.new }
    {
        match self.token.take() {
            Some(token) => match give_answer(&mut self.rtc, token, answer) {
                Ok(()) => Ok(true),
                Err(error) => Err(error),
            },
            None => release(answer, Ok(false)),
        }
    }

    /// Accepts the answer of a text to the offer of this side, and returns whether there was one (RFC 8829, section 5.11).
    ///
    /// The token is consumed, also if the answer is refused. A text that is no answer leaves all as it was.
    pub fn accept_answer(&mut self, alloc: Global, text: &str) -> Result<bool, RtcError>
        ensures takes { TakesAnswer (reading text.now) self.old result self.new }
    {
        match SdpAnswer::from_sdp_string(alloc, text) {
            Ok(answer) => self.finish(answer),
            Err(error) => Err(RtcError::from(error)),
        }
    }

    /// Rolls the offer of this side back, and returns whether there was one (RFC 8829, section 5.7). The token is consumed.
    pub fn roll_back(&mut self) -> Result<bool, RtcError>
        ensures takes_back { RollsOfferBack self.old result self.new }
    {
        match self.token.take() {
            Some(token) => match take_back(&mut self.rtc, token) {
                Ok(()) => Ok(true),
                Err(error) => Err(error),
            },
            None => Ok(false),
        }
    }

    // Writes an offer as the text that is to be sent.
    fn write_offer(&mut self, offer: SdpOffer) -> Status
        ensures written { WritesOffer offer.0 self.old.text result self.new.text }
        ensures others { self.new ≡ record self.old { text = self.new.text } }
    {
        match offer.to_sdp_string() {
            Ok(text) => {
                self.text = Text::new(text);
                release(offer, Status::Done)
            }
            Err(_) => release(offer, Status::NoMemory),
        }
    }

    /// Offers the wanted changes, and keeps the text of the offer and its token (RFC 8829, section 5.2).
    ///
    /// If there is no memory for the text, the token is kept nevertheless, so that the offer can be rolled back.
    pub fn offer(&mut self) -> Status
        ensures { Offers self.old result self.new }
    {
        match make_offer(&mut self.rtc, self.wanted.as_slice()) {
            Made::Offer(offer, token) => {
                self.wanted.clear();
                self.token = Some(token);
                self.write_offer(offer)
            }
            Made::Nothing => {
                self.wanted.clear();
                Status::NothingToOffer
            }
            Made::Failed(error) => Status::of_error(&error),
        }
    }
}
