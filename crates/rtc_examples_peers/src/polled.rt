//! Inputs and outputs of a peer.
use crate::ask::Ask;
use crate::outputs::Outputs;
use rtc_wire::{ChannelId, Moment, Transmit};

/// What programs ask of a peer that takes inputs and gives outputs (RFC 8825, section 2.2). A function over it is checked without what
/// a peer consists of.
pub trait Polled {
    /// Gives a moment, or a datagram of the other side that was received at one. Returns whether that was taken; an
    /// error is noted beside the outputs.
    fn hear(&mut self, now: Moment, came: Option<&Transmit>, outputs: &mut Outputs) -> bool;

    /// Polls once, and keeps what there is to give. Returns whether there may be more.
    fn give_next(&mut self, outputs: &mut Outputs) -> bool;

    /// Writes a message, binary or text, to an open channel. It returns whether it was taken.
    fn write(&mut self, channel: ChannelId, binary: bool, message: &[u8]) -> bool;

    /// The answer to a question.
    fn holds(&self, ask: Ask) -> bool;
}
