//! What examples ask of a peer as it was built.
use rtc_peer::Mid;

/// What examples ask of a peer beside signals, inputs and outputs: what it was built with, and its writers and channels. A function over it
/// is checked without what a peer consists of.
pub trait Built {
    /// Whether it wanted no timeout yet, has so many codecs, a media line only once it is declared, and changes once one is staged
    /// and none before.
    fn is_as_built(&mut self, codecs: usize, mid: Mid) -> bool;

    /// Whether a writer is lent for the first media line.
    fn lends_writer(&mut self) -> bool;

    /// Sets the threshold of the only channel, and writes a message to it. Returns whether all of it is buffered.
    fn buffers(&mut self, message: &[u8], threshold: usize) -> bool;
}
