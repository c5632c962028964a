//! The plain agent as a part.
ghost use Rattle.std.specs.Prelude.{◌≡◌};

use crate::agent::PlainIce;
use crate::message::is_message;
use rtc_parts::{IceAgent, IceConnectionState, IceEvent};
use rtc_sdp_values::{Candidate, IceCreds};
use rtc_wire::{Addr, Moment, Protocol, Span, StunError, StunReader, StunView, Transmit};
use std::alloc::AllocError;

impl StunReader for PlainIce {
    ghost use Rattle.rtc_plain_ice.specs.Messages.{is_ice_message};

    ghost stun = { is_ice_message };

    fn check(bytes: &[u8]) -> Result<(), StunError> {
        if is_message(bytes) {
            Ok(())
        } else {
            Err(StunError::NotStun)
        }
    }
}

impl IceAgent for PlainIce {
    ghost use Rattle.rtc_plain_ice.specs.PlainMeaning.{plain_ice};
    ghost use Rattle.rtc_plain_ice.specs.PlainLaws.{plain_ice_laws};

    ghost ice = { plain_ice };

    ghost laws = { plain_ice_laws };

    #[tactic(auto, unfolding(crate::specs::Calls::lite_set))]
    fn set_ice_lite(&mut self, lite: bool) {
        self.lite = lite;
    }

    fn ice_lite(&self) -> bool {
        self.lite
    }

    #[tactic(auto, unfolding(crate::specs::Calls::controlling_set))]
    fn set_controlling(&mut self, on: bool) {
        self.controlling = on;
    }

    fn controlling(&self) -> bool {
        self.controlling
    }

    #[tactic(auto, unfolding(crate::specs::Calls::local_set))]
    fn set_local_credentials(&mut self, c: IceCreds) {
        self.local = c;
    }

    fn local_credentials(&self) -> &IceCreds {
        &self.local
    }

    #[tactic(auto, unfolding(crate::specs::Calls::remote_set))]
    fn set_remote_credentials(&mut self, c: IceCreds) {
        self.remote = Some(c);
    }

    fn remote_credentials(&self) -> Option<&IceCreds> {
        self.remote.as_ref()
    }

    fn ice_restart(&mut self, c: IceCreds, keep_local_candidates: bool) -> Result<(), AllocError> {
        self.restart(c, keep_local_candidates)
    }

    #[tactic(auto, unfolding(crate::specs::Calls::local_added))]
    fn add_local_candidate(&mut self, c: Candidate) -> Result<bool, AllocError> {
        self.candidates.add(c)
    }

    fn local_candidates(&self) -> &[Candidate] {
        self.candidates.as_slice()
    }

    #[tactic(auto, unfolding(crate::specs::Calls::remote_added))]
    fn add_remote_candidate(&mut self, c: Candidate) -> Result<bool, AllocError> {
        self.remote_candidates.add(c)
    }

    fn invalidate_candidate(&mut self, c: &Candidate) -> bool {
        self.withdraw(c)
    }

    fn has_viable_remote_candidate(&self, a: Addr) -> bool {
        self.sees(a)
    }

    fn accepts_message(&self, m: &StunView<'_>) -> bool {
        self.is_meant(m.bytes)
    }

    fn handle_packet(
        &mut self,
        now: Moment,
        proto: Protocol,
        source: Addr,
        destination: Addr,
        m: &StunView<'_>,
    ) -> Result<(), AllocError> {
        self.take(now, proto, source, destination, m.bytes)
    }

    fn handle_timeout(&mut self, now: Moment) -> Result<(), AllocError> {
        self.time(now)
    }

    fn poll_event(&mut self) -> Option<IceEvent> {
        self.next_event()
    }

    fn poll_transmit(&mut self) -> Option<Transmit> {
        self.next_transmit()
    }

    fn poll_timeout(&self) -> Option<Moment> {
        self.wake()
    }

    fn state(&self) -> IceConnectionState {
        self.state
    }

    /// Checks are repeated without bound, each time after the first span.
    #[tactic(auto, unfolding(crate::specs::Calls::rto_set))]
    fn set_rto(&mut self, initial: Span, _max: Span, _retransmits: u32) {
        self.rto = initial;
    }

    fn pair_rtt(&self) -> Option<Span> {
        self.rtt
    }

    fn pair_total_rtt(&self) -> Span {
        match self.rtt {
            Some(span) => span,
            None => Span::from_nanos(0),
        }
    }

    fn pair_responses(&self) -> u64 {
        match self.rtt {
            Some(_) => 1,
            None => 0,
        }
    }
}
