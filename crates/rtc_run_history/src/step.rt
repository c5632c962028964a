//! Steps of a pair.
ghost use Rattle.std.specs.Prelude.{◌≡◌, ◌<◌, ◌^◌};

use crate::{Op, Side};
use rtc_wire::{Bytes, ChannelId, Moment, Seq, Text};

/// What one peer of a pair does in a step.
///
/// Offers and answers are numbered together over both peers, from 0 in the order they were made. A token has the number of its offer.
/// Datagrams are numbered over both peers, from 0 in the order they were polled.
#[derive(Debug, PartialEq, Eq, Drop)]
pub enum Step {
    /// Performs the ops in order on one `SdpApi`, and applies what they staged, or drops it if `apply` is false.
    Negotiate {
        at: Side,
        ops: Seq<Op>,
        apply: bool,
    },
    /// Accepts an offer of the other side, as signalling delivers it.
    AcceptOffer {
        at: Side,
        offer: u32,
    },
    /// Accepts an answer of the other side, as signalling delivers it, with the token of an offer of this side.
    AcceptAnswer {
        at: Side,
        token: u32,
        answer: u32,
    },
    /// Takes a moment.
    Time {
        at: Side,
        now: Moment,
    },
    /// Takes a datagram that the other side sent, at a moment.
    Datagram {
        at: Side,
        packet: u64,
        now: Moment,
    },
    /// Polls once.
    Poll {
        at: Side,
    },
    /// Polls up to a timeout or an error.
    Drain {
        at: Side,
    },
    /// Writes a message, text or binary, to a data channel that is open.
    Write {
        at: Side,
        channel: ChannelId,
        binary: bool,
        bytes: Bytes,
    },
    /// Closes a data channel that is open.
    CloseChannel {
        at: Side,
        channel: ChannelId,
    },
    /// Begins to close.
    Close {
        at: Side,
    },
    /// Rolls an offer of this side back, with its token.
    Rollback {
        at: Side,
        token: u32,
    },
    /// Accepts an offer that anybody wrote, if it can be read.
    ForeignOffer {
        at: Side,
        text: Text,
    },
    /// Accepts an answer that anybody wrote, if it can be read, with the token of an offer of this side.
    ForeignAnswer {
        at: Side,
        token: u32,
        text: Text,
    },
    /// Takes bytes of anybody at a moment, as a UDP datagram from the other side's address to this side's.
    Raw {
        at: Side,
        bytes: Bytes,
        now: Moment,
    },
}

impl Step {
    ghost use Rattle.rtc_run_history.specs.Sides.{side_of};
    ghost use Rattle.rtc_run_history.specs.Sizes.{step_size};

    /// One, and one more for each op or for each byte of a foreign text: how many rows, channels and session descriptions the step can add.
    pub fn size(&self) -> u64
        requires { step_size self.now < 2 ^ 64 }
        ensures { result ≡ step_size self.now }
    {
        match self {
            Step::Negotiate { ops, .. } => 1 + ops.len() as u64,
            Step::AcceptOffer { .. } => 1,
            Step::AcceptAnswer { .. } => 1,
            Step::Time { .. } => 1,
            Step::Datagram { .. } => 1,
            Step::Poll { .. } => 1,
            Step::Drain { .. } => 1,
            Step::Write { .. } => 1,
            Step::CloseChannel { .. } => 1,
            Step::Close { .. } => 1,
            Step::Rollback { .. } => 1,
            Step::ForeignOffer { text, .. } => 1 + text.as_str().len() as u64,
            Step::ForeignAnswer { text, .. } => 1 + text.as_str().len() as u64,
            Step::Raw { .. } => 1,
        }
    }

    /// The peer that acts.
    pub fn side(&self) -> Side
        ensures { result ≡ side_of self.now }
    {
        match self {
            Step::Negotiate { at, .. } => *at,
            Step::AcceptOffer { at, .. } => *at,
            Step::AcceptAnswer { at, .. } => *at,
            Step::Time { at, .. } => *at,
            Step::Datagram { at, .. } => *at,
            Step::Poll { at } => *at,
            Step::Drain { at } => *at,
            Step::Write { at, .. } => *at,
            Step::CloseChannel { at, .. } => *at,
            Step::Close { at } => *at,
            Step::Rollback { at, .. } => *at,
            Step::ForeignOffer { at, .. } => *at,
            Step::ForeignAnswer { at, .. } => *at,
            Step::Raw { at, .. } => *at,
        }
    }
}
