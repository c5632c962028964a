//! Packets and moments that are given.
ghost use Rattle.std.specs.Prelude.{◌≡◌};
ghost use Rattle.std.specs.List.{list_any};
ghost use Rattle.rtc_sctp_entries.specs.Entries.{Ascend, is_retrying as IsRetrying};
ghost use Rattle.rtc_sctp.specs.Rest.{AreNoted, is_retrying_of as IsRetryingOf};
ghost use Rattle.rtc_sctp.specs.Streams.{is_attached};
ghost use Rattle.rtc_sctp.specs.Calls.{TakesInput, TakesTimeout, timed_streams, streams_wake};
ghost use Rattle.rtc_sctp.specs.Calls.{state_on_input as StateOnInput, earlier_of as EarlierOf};
ghost use Rattle.rtc_sctp.specs.Calls.{attached_wake as AttachedWake, retry_wake as RetryWake};

use crate::polls::sweep;
use crate::streams::RtcSctp;
use crate::{RtcSctpState, StreamEntry};
use rtc_parts::Association;
use rtc_ready::Wake;
use rtc_sctp_entries::entries::{is_retrying, place_of};
use rtc_sctp_values::StreamSet;
use rtc_wire::{Moment, STREAM_OPEN_RETRY_INTERVAL};
use std::alloc::AllocError;

fn state_on_input(state: RtcSctpState) -> RtcSctpState
    ensures { result ≡ StateOnInput state }
{
    match state {
        RtcSctpState::Uninited => RtcSctpState::Uninited,
        RtcSctpState::AwaitRemoteAssociation => RtcSctpState::AwaitAssociationEstablished,
        RtcSctpState::AwaitAssociationEstablished => RtcSctpState::AwaitAssociationEstablished,
        RtcSctpState::Established => RtcSctpState::Established,
    }
}

// The earlier of two moments, if there are any.
fn earlier_of(a: Option<Moment>, b: Option<Moment>) -> Option<Moment>
    ensures { result ≡ EarlierOf a b }
{
    match a {
        None => b,
        Some(first) => match b {
            None => Some(first),
            Some(second) => Some(first.min(second)),
        },
    }
}

fn attached_wake<S: Association>(state: RtcSctpState, association: &S) -> Option<Moment>
    ensures { result ≡ AttachedWake S.association (is_attached state) association.now }
{
    if state.propagate_endpoint_to_assoc() {
        return association.poll_timeout();
    }
    None
}

// Whether the opening of a stream that may have something to do is tried again.
fn is_retried(entries: &[StreamEntry], id: u16) -> bool
    requires { Ascend entries.now }
    ensures { result ≡ list_any (IsRetryingOf id) entries.now }
{
    match place_of(entries, id) {
        None => false,
        Some(place) => is_retrying(&entries[place]),
    }
}

// Whether the opening of any stream is tried again. Each such stream may have something to do.
fn any_retrying(entries: &[StreamEntry], streams: &StreamSet) -> bool
    requires ascend { Ascend entries.now }
    requires noted { AreNoted streams.now entries.now }
    ensures { result ≡ list_any IsRetrying entries.now }
{
    let mut from = 0usize;
    'streams: while let Some(id) = streams.next(from) {
        if is_retried(entries, id) {
            return true;
        }
        from = id as usize + 1;
    }
    false
}

fn retry_wake(entries: &[StreamEntry], streams: &StreamSet, last: Moment) -> Option<Moment>
    requires ascend { Ascend entries.now }
    requires noted { AreNoted streams.now entries.now }
    ensures { result ≡ RetryWake entries.now last }
{
    if any_retrying(entries, streams) {
        return Some(last.plus(STREAM_OPEN_RETRY_INTERVAL));
    }
    None
}

impl<S: Association> RtcSctp<S> {
    /// Gives the association a packet of the other end. Before an `init` that is Ok nothing happens.
    pub fn handle_input(&mut self, now: Moment, bytes: &[u8]) -> Result<(), AllocError>
        ensures { TakesInput S.association now bytes.now self.old result self.new }
    {
        if self.association.is_started() {
            self.state = state_on_input(self.state);
            self.rests = false;
            self.association.handle_input(now, bytes)?;
        }
        Ok(())
    }

    /// Gives the association a moment, and says which signals are unchanged.
    pub fn handle_timeout(&mut self, now: Moment, wake: &mut Wake) -> Result<(), AllocError>
        ensures { TakesTimeout S.association now self.old wake.old result self.new wake.new }
    {
        match self.state {
            RtcSctpState::Uninited => {
                wake.no_events();
                wake.no_timeout();
                Ok(())
            }
            RtcSctpState::AwaitRemoteAssociation => {
                self.last = now;
                self.rests = false;
                sweep(&mut self.entries, &mut self.agenda);
                wake.no_events();
                Ok(())
            }
            RtcSctpState::AwaitAssociationEstablished => self.hand_moment(now),
            RtcSctpState::Established => self.hand_moment(now),
        }
    }

    // Keeps a moment, and gives it to the association.
    fn hand_moment(&mut self, now: Moment) -> Result<(), AllocError>
        ensures timed { S.association.timed self.old.association now result self.new.association }
        ensures kept { self.new ≡ record (timed_streams now self.old) { association = self.new.association } }
    {
        self.last = now;
        self.rests = false;
        sweep(&mut self.entries, &mut self.agenda);
        self.association.handle_timeout(now)?;
        Ok(())
    }

    /// When `handle_timeout` is wanted.
    pub fn poll_timeout(&self) -> Option<Moment>
        ensures { result ≡ streams_wake S.association self.now }
    {
        earlier_of(
            attached_wake(self.state, &self.association),
            retry_wake(self.entries.as_slice(), &self.agenda.streams, self.last),
        )
    }
}
