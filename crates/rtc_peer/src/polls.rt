//! Polls, inputs and closing of a peer.
ghost use Rattle.std.specs.Prelude.{◌≡◌, ◌≢◌, ℕ, Some, Ok, false};
ghost use Rattle.rtc_peer_core.specs.declared.phase.Phase.TheVariants.{Closed};
ghost use Rattle.rtc_peer_core.specs.Meanings.{meanings};
ghost use Rattle.rtc_peer_transport.specs.Closing.{ClosesPeer};
ghost use Rattle.rtc_peer_polling.specs.Inputs.{HandlesInput};
ghost use Rattle.rtc_peer_transport.specs.Readings.{is_accepted, is_peer_connected};
ghost use Rattle.rtc_peer_transport.specs.declared.met.Met.TheVariants.{Nothing};
ghost use Rattle.rtc_peer_transport.specs.declared.output.Output.TheVariants.{Timeout};
ghost use Rattle.rtc_peer_transport.specs.Deadlines.{least_deadline, wake_moment};
ghost use Rattle.rtc_peer_polling.specs.Walk.{PollsPeer, RestsClosed, with_reason};
ghost use Rattle.rtc_peer.specs.CachedPeer.{AnswersKept, kept_timeout_of, polled_of};
ghost use Rattle.rtc_peer.specs.PeerSignals.{MeetsParts};

use crate::Rtc;
use crate::waking::wake_all;
use rtc_parts::{Association, DtlsInstance, IceAgent, Ids, MediaSession, Reason};
use rtc_peer_core::{Phase, RtcError};
use rtc_peer_polling::{rest, visit};
use rtc_peer_transport::{Input, Met, Output};
use rtc_wire::Moment;

impl<I: IceAgent, D: DtlsInstance, S: Association, M: MediaSession, N: Ids> Rtc<I, D, S, M, N> {
    // What the parts give first, if a walk may meet something. A closing that is complete leaves the peer closed.
    fn meet(&mut self) -> Met<M::E>
        ensures walked { MeetsParts (meanings I.ice D.dtls S.association M.media N.ids) (polled_of self.old) result (polled_of self.new) }
        ensures quiet { result ≡ Nothing → self.new.core.phase ≢ Closed → self.new.signals.events ≡ false }
        ensures passed { self.old.signals.events ≡ false → (result ≡ Nothing) × (self.new ≡ self.old) }
    {
        if !self.readiness.wants_events() {
            return Met::Nothing;
        }
        wake_all(&mut self.readiness);
        match visit(&mut self.polled) {
            Met::Nothing => {
                if self.polled.is_closing_done() {
                    self.polled.core.phase = Phase::Closed;
                    return Met::Nothing;
                }
                self.readiness.clear_events();
                Met::Nothing
            }
            met => met,
        }
    }

    // The least deadline, which is read if the timers may have moved.
    fn wait(&mut self) -> Moment
        ensures moment { result ≡ wake_moment (meanings I.ice D.dtls S.association M.media N.ids) (polled_of self.old) }
        ensures reason { polled_of self.new ≡ with_reason
            (least_deadline (meanings I.ice D.dtls S.association M.media N.ids) (polled_of self.old)).1 (polled_of self.old) }
        ensures signals { self.new.signals ≡ record self.old.signals { timeout = false } }
        ensures kept { self.new.kept ≡ result }
        ensures passed { self.old.signals.timeout ≡ false → (result ≡ self.old.kept) × (self.new ≡ self.old) }
    {
        if !self.readiness.wants_timeout() {
            return self.kept;
        }
        let (moment, reason) = self.polled.least_deadline();
        self.kept = Moment::from_nanos(self.polled.core.greatest.nanos().max(moment.nanos()));
        self.polled.transport.last_reason = reason;
        self.readiness.clear_timeout();
        self.kept
    }

    // What a closed peer returns. What its signals are does not matter.
    fn rest_closed(&mut self) -> Result<Output<M::E>, RtcError>
        ensures rests { RestsClosed (polled_of self.old) result (polled_of self.new) }
    {
        wake_all(&mut self.readiness);
        rest(&mut self.polled)
    }

    /// Returns the next event or datagram, or, if there is none, the moment of a timeout. After every call on a peer,
    /// call it until it returns a timeout.
    ///
    /// A certificate that is not the announced one is refused (RFC 8122, section 6.2), and the peer is then closed. A
    /// closed peer returns a moment that is never reached. While `kept_timeout` has a moment, it visits no part.
    pub fn poll_output(&mut self) -> Result<Output<M::E>, RtcError>
        ensures polls { PollsPeer (meanings I.ice D.dtls S.association M.media N.ids) (polled_of self.old) result (polled_of self.new) }
        ensures answers_kept { (moment : ℕ) → kept_timeout_of self.old ≡ Some moment
            → AnswersKept self.old.core.phase moment self.old result self.new }
        ensures keeps { (moment : ℕ) → result ≡ Ok (Timeout moment) → kept_timeout_of self.new ≡ Some moment }
    {
        match self.polled.core.phase {
            Phase::Alive | Phase::Closing => {}
            Phase::Closed => return self.rest_closed(),
        }
        match self.meet() {
            Met::Nothing => {}
            Met::Again => unreachable!(),
            Met::Transmit(transmit) => return Ok(Output::Transmit(transmit)),
            Met::Event(event) => return Ok(Output::Event(event)),
            Met::Error(error) => return Err(error),
        }
        match self.polled.core.phase {
            Phase::Alive | Phase::Closing => Ok(Output::Timeout(self.wait())),
            Phase::Closed => self.rest_closed(),
        }
    }

    /// The moment of the timeout that the next poll returns, if the peer is sure of it: it is then polled for nothing.
    /// None as long as a call since the last timeout may have given something to a part, and `FAR_FUTURE` once it is
    /// closed.
    pub fn kept_timeout(&self) -> Option<Moment>
        ensures { result ≡ kept_timeout_of self.now }
    {
        match self.polled.core.phase {
            Phase::Alive | Phase::Closing => {}
            Phase::Closed => return Some(Moment::FAR_FUTURE),
        }
        if self.readiness.wants_events() {
            return None;
        }
        if self.readiness.wants_timeout() {
            return None;
        }
        Some(self.kept)
    }

    /// The reason of the last timeout that a poll returned; `NotHappening` before the first.
    pub fn last_timeout_reason(&self) -> Reason
        ensures { result ≡ self.now.transport.last_reason }
    {
        self.polled.last_timeout_reason()
    }

    /// Whether datagrams, application data and media can go both ways.
    pub fn is_connected(&self) -> bool
        ensures { result ≡ is_peer_connected (meanings I.ice D.dtls S.association M.media N.ids) (polled_of self.now) }
    {
        self.polled.is_connected()
    }

    /// Whether an input is for this peer, if several share a socket. A timeout is, and so is a datagram from the
    /// address that it sends to. The agent decides on other ICE messages. Other datagrams have to be from a viable
    /// remote candidate.
    pub fn accepts(&self, input: &Input<'_>) -> bool
        ensures { result ≡ is_accepted (meanings I.ice D.dtls S.association M.media N.ids) (polled_of self.now) input.now }
    {
        self.polled.accepts(input)
    }

    /// Gives the peer a moment, or a datagram that was received at one. A moment before the greatest that it was given
    /// changes nothing; a datagram is given to the part of its kind. A closed peer ignores both.
    pub fn handle_input(&mut self, input: &Input<'_>) -> Result<(), RtcError>
        ensures { HandlesInput (meanings I.ice D.dtls S.association M.media N.ids) input.now (polled_of self.old) result
            (polled_of self.new) }
    {
        wake_all(&mut self.readiness);
        rtc_peer_polling::handle_input(&mut self.polled, input)
    }

    /// Begins to close the peer, and polls end it. Media says goodbye (RFC 3550, section 6.6), the association is shut
    /// down (RFC 9260, section 9.2), and the DTLS connection is closed (RFC 5246, section 7.2.1). Nothing happens if
    /// this has begun. An error leaves the peer closed.
    pub fn close(&mut self) -> Result<(), RtcError>
        ensures { ClosesPeer (meanings I.ice D.dtls S.association M.media N.ids) (polled_of self.old) result (polled_of self.new) }
    {
        wake_all(&mut self.readiness);
        self.polled.close()
    }
}
