//! What becomes of datagrams and events.
ghost use Rattle.std.specs.Prelude.{◌≡◌, ◌+◌, ◌%◌, ◌^◌};

use rtc::{Event, PlainMediaEvent, RtcError, Sink, Transmit};

/// Datagrams are not sent, and events are counted: other stacks are given descriptions alone.
#[derive(Drop)]
pub struct Quiet {
    pub events: u64,
}

impl Sink<PlainMediaEvent> for Quiet {
    fn send(&mut self, _datagram: Transmit) -> Result<(), RtcError> {
        Ok(())
    }

    fn report(&mut self, _event: Event<PlainMediaEvent>) -> Result<(), RtcError>
        ensures { self.new.events ≡ (self.old.events + 1) % 2 ^ 64 }
    {
        self.events = self.events.wrapping_add(1);
        Ok(())
    }
}
