//! What takes the outputs of a peer.
use rtc_peer::{Event, RtcError};
use rtc_wire::Transmit;

/// What takes the outputs of a peer as `drive` polls them. `E` are the events of its media part.
///
/// An error ends the drive, which returns it.
pub trait Sink<E> {
    ghost use Rattle.rtc.specs.SinkMeaning.{SinkMeaning, any_sink};

    /// What the calls of the sink do. An impl without it says nothing of them.
    ghost sink: { SinkMeaning Self E } = { any_sink };

    /// Sends a datagram to the other side.
    fn send(&mut self, datagram: Transmit) -> Result<(), RtcError>
        ensures { sink.sent self.old datagram result self.new };

    /// Reports an event to the user.
    fn report(&mut self, event: Event<E>) -> Result<(), RtcError>
        ensures { sink.reported self.old event result self.new };
}
