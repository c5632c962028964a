//! What examples ask of a peer that is driven without session descriptions.
use crate::introduction::Introduction;
use rtc_peer::{Candidate, IceCreds, Mid, SctpInitData};
use rtc_wire::ChannelConfig;

/// What examples ask of a peer without session descriptions. Each method makes its calls in a row, with numbers of its own; it returns
/// whether all of them return what is expected. A function over it is checked without what a peer consists of.
pub trait Direct {
    /// The parts take what they are given; an address that was not added is none to withdraw.
    fn takes_parts(&mut self, given: Introduction, ufrag: &str, here: &Candidate) -> bool;

    /// Credentials and an address of the other side are taken.
    fn learns(&mut self, other: IceCreds, there: Candidate) -> bool;

    /// The parts, the association and a channel, which is the first one, begin with what they are given.
    fn begins(&mut self, given: Introduction, active: bool, channel: ChannelConfig) -> bool;

    /// One SNAP INIT chunk starts nothing, both start the association, and so does any start behind it.
    fn starts(&mut self, half: SctpInitData, halves: SctpInitData) -> bool;

    /// Channels are numbered from 0. One that is negotiated for a stream that another claims is refused. None has a stream before a poll.
    fn makes_channels(
        &mut self,
        first: ChannelConfig,
        again: ChannelConfig,
        other: ChannelConfig,
    ) -> bool;

    /// The first channel is closed.
    fn closes_channel(&mut self) -> bool;

    /// A second DTLS role is Ok, too.
    fn takes_roles(&mut self) -> bool;

    /// Feedback is sent: on transport, of the application with the bytes 5 and 6, and a wish for a picture. A line that there is not sends
    /// no redundancy.
    fn sends_feedback(&mut self, mid: Mid) -> bool;

    /// A mid is declared once. The first line is stopped and keeps its mid; the last one is removed once, and may be declared again.
    fn declares_lines(&mut self, first: Mid, last: Mid) -> bool;

    /// A peer ends once.
    fn ends(&mut self) -> bool;
}
