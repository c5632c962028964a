//! Offers and answers of a peer as texts.
use crate::layers::Layers;
use crate::reply::Reply;
use crate::texts::Texts;
use std::alloc::{AllocError, Global};

/// What programs ask of a peer as signalling sees it (RFC 8829, section 3). A function over it is checked without what a peer or a
/// session description consists of.
pub trait Signals {
    /// Gives the address of a host, by its number. It returns whether the peer has it now and had it not before.
    fn add_host(&mut self, alloc: Global, number: u8) -> bool;

    /// Accepts an offer in a text, and answers it.
    fn answer(&mut self, alloc: Global, offer: &str) -> Reply;

    /// Offers so many channels without a label to the other peer, whose answer it accepts; the texts of both are kept.
    /// Returns whether all of it is done.
    fn agree(&mut self, other: &mut Self, alloc: Global, channels: u32, texts: &mut Texts) -> bool;

    /// The text of the offer of a line of video that sends layers; no answer is awaited.
    fn offer_line(&mut self, alloc: Global, layers: Layers) -> Result<String, AllocError>;
}
