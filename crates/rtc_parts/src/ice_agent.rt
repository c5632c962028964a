//! The agent that finds a way to the other side.
use crate::{IceConnectionState, IceEvent};
use rtc_sdp_values::{Candidate, IceCreds};
use rtc_wire::{Addr, Moment, Protocol, Span, StunReader, StunView, Transmit};
use std::alloc::AllocError;

/// The ICE agent of one side (RFC 8445), which finds a pair of addresses by which datagrams reach the other side.
///
/// Messages and moments are given; events and datagrams are polled. What a call does is its relation in the meaning of
/// the agent, and what holds of every agent are the laws.
pub trait IceAgent: StunReader {
    ghost use Rattle.std.specs.Prelude.{◌≡◌, MatchOption, Some, None};
    ghost use Rattle.rtc_parts.specs.IceMeaning.{IceMeaning};
    ghost use Rattle.rtc_parts.specs.IceLaws.{IceLaws};

    ghost ice: { IceMeaning Self };

    /// Sets whether this side only answers checks (RFC 8445, section 2.5).
    fn set_ice_lite(&mut self, lite: bool)
        ensures { ice.lite_set self.old lite self.new };

    fn ice_lite(&self) -> bool
        ensures { result ≡ (ice.settings self.now).lite };

    /// Sets whether this side is controlling (RFC 8445, section 6.1.1).
    fn set_controlling(&mut self, on: bool)
        ensures { ice.controlling_set self.old on self.new };

    fn controlling(&self) -> bool
        ensures { result ≡ ice.controlling self.now };

    fn set_local_credentials(&mut self, c: IceCreds)
        ensures { ice.local_set self.old c self.new };

    fn local_credentials(&self) -> &IceCreds
        ensures { result.now ≡ (ice.settings self.now).local };

    fn set_remote_credentials(&mut self, c: IceCreds)
        ensures { ice.remote_set self.old c self.new };

    fn remote_credentials(&self) -> Option<&IceCreds>
        ensures { MatchOption result ((ice.settings self.now).remote ≡ None) (λ c. (ice.settings self.now).remote ≡ Some c.now) };

    /// Starts over with new local credentials (RFC 8445, section 9).
    fn ice_restart(&mut self, c: IceCreds, keep_local_candidates: bool) -> Result<(), AllocError>
        ensures { ice.restarted self.old c keep_local_candidates result self.new };

    /// Ok says whether the candidate was taken.
    fn add_local_candidate(&mut self, c: Candidate) -> Result<bool, AllocError>
        ensures { ice.local_added self.old c result self.new };

    fn local_candidates(&self) -> &[Candidate]
        ensures { result.now ≡ (ice.settings self.now).candidates };

    /// Ok says whether the candidate was taken.
    fn add_remote_candidate(&mut self, c: Candidate) -> Result<bool, AllocError>
        ensures { ice.remote_added self.old c result self.new };

    /// Stops using a candidate. Returns whether it was there.
    fn invalidate_candidate(&mut self, c: &Candidate) -> bool
        ensures { ice.invalidated self.old c.now result self.new };

    /// Whether datagrams from an address may be the other side's.
    fn has_viable_remote_candidate(&self, a: Addr) -> bool
        ensures { result ≡ ice.viable self.now a };

    /// Whether a message is for this agent.
    fn accepts_message(&self, m: &StunView<'_>) -> bool
        ensures { result ≡ ice.accepts self.now m.now.bytes.now };

    /// Takes a message of the other side.
    fn handle_packet(
        &mut self,
        now: Moment,
        proto: Protocol,
        source: Addr,
        destination: Addr,
        m: &StunView<'_>,
    ) -> Result<(), AllocError>
        ensures { ice.given self.old now proto source destination m.now.bytes.now result self.new };

    fn handle_timeout(&mut self, now: Moment) -> Result<(), AllocError>
        ensures { ice.timed self.old now result self.new };

    /// The next event.
    fn poll_event(&mut self) -> Option<IceEvent>
        ensures { ice.polled self.old result self.new };

    /// The next datagram for the other side.
    fn poll_transmit(&mut self) -> Option<Transmit>
        ensures { ice.gave self.old result self.new };

    /// When `handle_timeout` is wanted.
    fn poll_timeout(&self) -> Option<Moment>
        ensures { result ≡ ice.wake self.now };

    fn state(&self) -> IceConnectionState
        ensures { result ≡ ice.state self.now };

    /// Sets the first and the greatest span between two checks of a pair, and how often a check is repeated.
    fn set_rto(&mut self, initial: Span, max: Span, retransmits: u32)
        ensures { ice.rto_set self.old initial max retransmits self.new };

    /// From the last check of the pair in use to its response; None before a response was received.
    fn pair_rtt(&self) -> Option<Span>
        ensures { result ≡ ice.pair_rtt self.now };

    /// The sum of all these spans.
    fn pair_total_rtt(&self) -> Span
        ensures { result ≡ ice.pair_total_rtt self.now };

    /// How many responses were received for the pair in use.
    fn pair_responses(&self) -> u64
        ensures { result ≡ ice.pair_responses self.now };

    ghost laws: { IceLaws ice };
}
