//! The texts of a round.
use rtc_peer::{RtcError, SdpAnswer, SdpOffer, SdpPendingOffer};
use rtc_wire_drops::release;
use rtc_wire_text::lines;
use std::alloc::{AllocError, Global};

/// The text of an offer of a made pair, or no text if none was made.
pub fn write_offer(
    alloc: Global,
    made: Option<(SdpOffer, SdpPendingOffer)>,
) -> Result<String, AllocError> {
    let text = match &made {
        Some((offer, _)) => offer.to_sdp_string(),
        None => Ok(String::new(alloc)),
    };
    release(made, text)
}

/// The texts of a round as the other side receives them, and the fingerprint that the answer is to announce, if it is
/// another one than that of its side.
#[derive(Drop)]
pub struct Texts {
    pub offer: String,
    pub answer: String,
    announced: String,
}

impl Texts {
    /// The texts of a round that is not yet done.
    pub fn new(alloc: Global) -> Texts {
        Texts {
            offer: String::new(alloc),
            answer: String::new(alloc),
            announced: String::new(alloc),
        }
    }

    /// Has the answer announce this fingerprint, as the value of its attribute.
    pub fn announce(&mut self, value: &str) -> Result<(), AllocError> {
        self.announced.push_str(value)
    }

    /// Keeps the text of an offer.
    pub fn tell_offer(&mut self, offer: SdpOffer) -> Result<(), AllocError> {
        let text = offer.to_sdp_string();
        let text = release(offer, text)?;
        self.offer.push_str(text.as_str())
    }

    fn push_line(&mut self, line: &str) -> Result<(), AllocError> {
        match line.split_once(':') {
            Some(("a=fingerprint", _)) if !self.announced.as_str().is_empty() => {
                self.answer.push_str("a=fingerprint:")?;
                self.answer.push_str(self.announced.as_str())?;
            }
            _ => self.answer.push_str(line)?,
        }
        self.answer.push_str("\r\n")
    }

    fn push_lines(&mut self, alloc: Global, text: &str) -> Result<(), AllocError> {
        let found = lines(alloc, text)?;
        for line in found.as_slice() {
            self.push_line(*line)?;
        }
        Ok(())
    }

    /// Keeps the text of an answer, and reads it as the other side does.
    pub fn read_answer(
        &mut self,
        alloc: Global,
        answered: Result<String, RtcError>,
    ) -> Result<SdpAnswer, RtcError> {
        let text = answered?;
        self.push_lines(alloc, text.as_str())?;
        Ok(SdpAnswer::from_sdp_string(alloc, self.answer.as_str())?)
    }
}
