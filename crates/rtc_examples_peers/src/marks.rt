//! What examples ask of a peer's streams without session descriptions.
use rtc_peer::Mid;

/// What examples ask of the streams of a peer, whose media part has marks, as `Direct` asks of the rest.
pub trait Marks {
    /// The fourth number is in use with its retransmissions, so that the sixth is given.
    fn passes_over(&mut self, mid: Mid) -> bool;

    /// A stream that is received is made if a row of media has its mid, and keeps what is written to its mark.
    fn marks_received(&mut self, mid: Mid) -> bool;

    /// So is one that is sent, which may get another SSRC.
    fn marks_sent(&mut self, mid: Mid) -> bool;

    /// A stream is dropped by its SSRC, and with its line.
    fn drops_streams(&mut self, mid: Mid) -> bool;
}
