//! What a stage of a poll meets.
use crate::Event;
use rtc_peer_core::RtcError;
use rtc_wire::Transmit;

/// What one stage of a poll met; never a timeout, which a poll returns if every stage met nothing.
#[derive(Drop)]
pub enum Met<E> {
    Nothing,
    /// The walk starts over.
    Again,
    Transmit(Transmit),
    Event(Event<E>),
    Error(RtcError),
}
