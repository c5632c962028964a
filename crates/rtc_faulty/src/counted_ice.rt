//! A counted ICE agent.
use crate::{CallKind, Counted};
use rtc_parts::{IceAgent, IceConnectionState, IceEvent};
use rtc_sdp_values::{Candidate, IceCreds};
use rtc_wire::{Addr, Moment, Protocol, Span, StunError, StunReader, StunView, Transmit};
use std::alloc::AllocError;

impl<I: IceAgent> IceAgent for Counted<I> {
    ghost ice = { I.ice };

    ghost laws = { I.laws };

    fn set_ice_lite(&mut self, lite: bool) {
        self.calls.add(CallKind::Change);
        self.inner.set_ice_lite(lite);
    }

    fn ice_lite(&self) -> bool {
        self.calls.add(CallKind::Reading);
        self.inner.ice_lite()
    }

    fn set_controlling(&mut self, on: bool) {
        self.calls.add(CallKind::Change);
        self.inner.set_controlling(on);
    }

    fn controlling(&self) -> bool {
        self.calls.add(CallKind::Reading);
        self.inner.controlling()
    }

    fn set_local_credentials(&mut self, c: IceCreds) {
        self.calls.add(CallKind::Change);
        self.inner.set_local_credentials(c);
    }

    fn local_credentials(&self) -> &IceCreds {
        self.calls.add(CallKind::Reading);
        self.inner.local_credentials()
    }

    fn set_remote_credentials(&mut self, c: IceCreds) {
        self.calls.add(CallKind::Change);
        self.inner.set_remote_credentials(c);
    }

    fn remote_credentials(&self) -> Option<&IceCreds> {
        self.calls.add(CallKind::Reading);
        self.inner.remote_credentials()
    }

    fn ice_restart(&mut self, c: IceCreds, keep_local_candidates: bool) -> Result<(), AllocError> {
        self.calls.add(CallKind::Change);
        self.inner.ice_restart(c, keep_local_candidates)
    }

    fn add_local_candidate(&mut self, c: Candidate) -> Result<bool, AllocError> {
        self.calls.add(CallKind::Change);
        self.inner.add_local_candidate(c)
    }

    fn local_candidates(&self) -> &[Candidate] {
        self.calls.add(CallKind::Reading);
        self.inner.local_candidates()
    }

    fn add_remote_candidate(&mut self, c: Candidate) -> Result<bool, AllocError> {
        self.calls.add(CallKind::Change);
        self.inner.add_remote_candidate(c)
    }

    fn invalidate_candidate(&mut self, c: &Candidate) -> bool {
        self.calls.add(CallKind::Change);
        self.inner.invalidate_candidate(c)
    }

    fn has_viable_remote_candidate(&self, a: Addr) -> bool {
        self.calls.add(CallKind::Reading);
        self.inner.has_viable_remote_candidate(a)
    }

    fn accepts_message(&self, m: &StunView<'_>) -> bool {
        self.calls.add(CallKind::Reading);
        self.inner.accepts_message(m)
    }

    fn handle_packet(
        &mut self,
        now: Moment,
        proto: Protocol,
        source: Addr,
        destination: Addr,
        m: &StunView<'_>,
    ) -> Result<(), AllocError> {
        self.calls.add(CallKind::Packet);
        self.inner.handle_packet(now, proto, source, destination, m)
    }

    fn handle_timeout(&mut self, now: Moment) -> Result<(), AllocError> {
        self.calls.add(CallKind::Timeout);
        self.inner.handle_timeout(now)
    }

    fn poll_event(&mut self) -> Option<IceEvent> {
        self.calls.add(CallKind::Poll);
        self.inner.poll_event()
    }

    fn poll_transmit(&mut self) -> Option<Transmit> {
        self.calls.add(CallKind::Poll);
        self.inner.poll_transmit()
    }

    fn poll_timeout(&self) -> Option<Moment> {
        self.calls.add(CallKind::Reading);
        self.inner.poll_timeout()
    }

    fn state(&self) -> IceConnectionState {
        self.calls.add(CallKind::Reading);
        self.inner.state()
    }

    fn set_rto(&mut self, initial: Span, max: Span, retransmits: u32) {
        self.calls.add(CallKind::Change);
        self.inner.set_rto(initial, max, retransmits);
    }

    fn pair_rtt(&self) -> Option<Span> {
        self.calls.add(CallKind::Reading);
        self.inner.pair_rtt()
    }

    fn pair_total_rtt(&self) -> Span {
        self.calls.add(CallKind::Reading);
        self.inner.pair_total_rtt()
    }

    fn pair_responses(&self) -> u64 {
        self.calls.add(CallKind::Reading);
        self.inner.pair_responses()
    }
}

/// The reader keeps nothing, so that its calls are not counted.
impl<I: IceAgent> StunReader for Counted<I> {
    ghost stun = { I.stun };

    fn check(bytes: &[u8]) -> Result<(), StunError> {
        I::check(bytes)
    }
}
