//! The transport of messages under the data channels.
use crate::{AssocError, AssocEvent, Ppi};
use rtc_wire::{Moment, ReliabilityType};
use std::alloc::AllocError;

/// One end of a reliable transport of messages over streams that can be reset (RFC 8831, section 6).
///
/// Packets and moments are given; packets, messages and events are polled. What a call does is its relation in the
/// meaning of the part, and what holds of every part are the laws.
pub trait Association {
    ghost use Rattle.std.specs.Prelude.{◌≡◌, ◌≤◌, true, false};
    ghost use Rattle.rtc_parts.specs.AssociationMeaning.{AssociationMeaning};
    ghost use Rattle.rtc_parts.specs.AssociationLaws.{AssociationLaws};
    ghost use Rattle.rtc_parts.specs.Returned.{returned_message, returned_packet};

    ghost association: { AssociationMeaning Self };

    /// Sets the greatest size of a packet, and the longest message that this end takes.
    fn set_limits(&mut self, max_payload: usize, local_max_message: u32)
        requires least { 29 ≤ max_payload }
        requires most { max_payload ≤ 1900 }
        ensures { association.limits_set self.old max_payload local_max_message self.new };

    /// Starts as the client. `max_send` is the longest message that the other end takes, in bytes.
    fn connect(&mut self, now: Moment, max_send: u32) -> Result<(), AssocError>
        requires { association.started self.old ≡ false }
        ensures { association.connected self.old now max_send result self.new };

    /// Starts as the server.
    fn accept(&mut self, now: Moment, max_send: u32) -> Result<(), AssocError>
        requires { association.started self.old ≡ false }
        ensures { association.accepted self.old now max_send result self.new };

    /// Starts with the initial chunks that the session descriptions carried (draft-hancke-tsvwg-snap).
    fn connect_snap(
        &mut self,
        now: Moment,
        max_send: u32,
        local: &[u8],
        remote: &[u8],
    ) -> Result<(), AssocError>
        requires { association.started self.old ≡ false }
        ensures { association.connected_snap self.old now max_send local.now remote.now result self.new };

    fn is_started(&self) -> bool
        ensures { result ≡ association.started self.now };

    fn is_closing(&self) -> bool
        ensures { result ≡ association.closing self.now };

    fn is_closed(&self) -> bool
        ensures { result ≡ association.closed self.now };

    fn open_stream(&mut self, id: u16) -> Result<(), AssocError>
        requires { association.started self.old ≡ true }
        ensures { association.opened self.old id result self.new };

    fn has_stream(&self, id: u16) -> bool
        ensures { result ≡ association.has_stream self.now id };

    /// Whether the stream is there and neither readable nor writable.
    fn is_stale(&self, id: u16) -> bool
        ensures { result ≡ association.stale self.now id };

    /// How many resets of the stream were completed here.
    fn generation(&self, id: u16) -> u64
        ensures { result ≡ association.generation self.now id };

    /// Writes a message. Ok is the number of its bytes.
    fn stream_write(&mut self, id: u16, ppi: Ppi, bytes: &[u8]) -> Result<usize, AssocError>
        requires { association.started self.old ≡ true }
        ensures { association.wrote self.old id ppi bytes.now result self.new };

    /// The oldest unread message of the stream, if there is one.
    fn stream_read(&mut self, id: u16) -> Result<Option<(Ppi, Vec<u8>)>, AssocError>
        requires { association.started self.old ≡ true }
        ensures { association.read self.old id (returned_message result) self.new };

    /// Closes the stream, which is reset once both ends closed it.
    fn stream_close(&mut self, id: u16) -> Result<(), AssocError>
        requires { association.started self.old ≡ true }
        ensures { association.ended self.old id result self.new };

    /// The written bytes of the stream that are not yet acknowledged; 0 if there is no such stream.
    fn buffered_amount(&self, id: u16) -> usize
        ensures { result ≡ association.buffered self.now id };

    /// Asks for an event once `n` bytes or fewer are buffered.
    fn set_threshold(&mut self, id: u16, n: usize) -> Result<(), AssocError>
        requires { association.started self.old ≡ true }
        ensures { association.threshold_set self.old id n result self.new };

    fn set_reliability(
        &mut self,
        id: u16,
        unordered: bool,
        t: ReliabilityType,
        p: u32,
    ) -> Result<(), AssocError>
        requires { association.started self.old ≡ true }
        ensures { association.reliability_set self.old id unordered t p result self.new };

    /// Takes a packet of the other end.
    fn handle_input(&mut self, now: Moment, bytes: &[u8]) -> Result<(), AllocError>
        requires { association.started self.old ≡ true }
        ensures { association.given self.old now bytes.now result self.new };

    fn handle_timeout(&mut self, now: Moment) -> Result<(), AllocError>
        ensures { association.timed self.old now result self.new };

    /// The next event.
    fn poll(&mut self) -> Option<AssocEvent>
        ensures { association.polled self.old result self.new };

    /// The next packet for the other end.
    fn poll_transmit(&mut self) -> Option<Vec<u8>>
        ensures { association.gave self.old (returned_packet result) self.new };

    /// When `handle_timeout` is wanted.
    fn poll_timeout(&self) -> Option<Moment>
        ensures { result ≡ association.wake self.now };

    /// Closes the association.
    fn shutdown(&mut self) -> Result<(), AssocError>
        requires { association.started self.old ≡ true }
        ensures { association.shut self.old result self.new };

    ghost laws: { AssociationLaws association };
}
