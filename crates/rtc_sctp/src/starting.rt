//! The start of an association, and its end.
ghost use Rattle.std.specs.Prelude.{◌≡◌, None, false, true, IfErr, OnOk, Err};
ghost use Rattle.rtc_sctp_entries.specs.declared.asked.Asked.TheVariants.{Done};
ghost use Rattle.rtc_sctp_values.specs.SnapHalves.{begun_halves};
ghost use Rattle.rtc_sctp.specs.Calls.{AsksSnap, AsksInit, Inits, Shuts, is_ended as IsEnded};
ghost use Rattle.rtc_sctp.specs.Calls.{limit_or_default as LimitOrDefault, are_whole as AreWhole};
ghost use Rattle.rtc_sctp.specs.Calls.{started_state as StartedState, begun_state as BegunState};
ghost use Rattle.rtc_sctp.specs.Refusals.{IsRefusedAs, refusal_of_start};

use crate::events::make_room;
use crate::streams::RtcSctp;
use crate::{ProtoError, RtcSctpState, SctpError, SctpInitData};
use rtc_parts::Association;
use rtc_sctp_entries::{Asked, part};
use rtc_wire::{DEFAULT_REMOTE_MAX_MESSAGE_SIZE, Moment};
use rtc_wire_drops::release;

fn limit_or_default(remote_max: Option<u32>) -> u32
    ensures { result ≡ LimitOrDefault remote_max }
{
    match remote_max {
        None => DEFAULT_REMOTE_MAX_MESSAGE_SIZE,
        Some(max) => max,
    }
}

fn started_state(client: bool) -> RtcSctpState
    ensures { result ≡ StartedState client }
{
    if client {
        return RtcSctpState::AwaitAssociationEstablished;
    }
    RtcSctpState::AwaitRemoteAssociation
}

fn begun_state(snap: &Option<SctpInitData>, client: bool) -> RtcSctpState
    ensures { result ≡ BegunState snap.now client }
{
    match snap {
        None => started_state(client),
        Some(_) => RtcSctpState::Established,
    }
}

// Whether no chunks are given, or both of them.
fn are_whole(snap: &Option<SctpInitData>) -> bool
    ensures { result ≡ AreWhole snap.now }
{
    match snap {
        None => true,
        Some(halves) => halves.is_whole(),
    }
}

// Starts an association with the chunks of both ends.
fn start_by_snap<S: Association>(
    association: &mut S,
    halves: &SctpInitData,
    now: Moment,
    max_send: u32,
) -> Asked
    requires { S.association.started association.old ≡ false }
    ensures { AsksSnap S.association halves.now association.old now max_send result association.new }
{
    Asked::of(association.connect_snap(now, max_send, halves.local_bytes(), halves.remote_bytes()))
}

// Starts an association with both SNAP INIT chunks, if they are given, or else as the client or as the server.
fn ask_start<S: Association>(
    association: &mut S,
    snap: &Option<SctpInitData>,
    client: bool,
    now: Moment,
    max_send: u32,
) -> Asked
    requires fresh { S.association.started association.old ≡ false }
    requires whole { AreWhole snap.now ≡ true }
    ensures { AsksInit S.association snap.now client association.old now max_send result association.new }
{
    match snap {
        None => part::start(association, client, now, max_send),
        Some(halves) => start_by_snap(association, halves, now, max_send),
    }
}

impl<S: Association> RtcSctp<S> {
    // Starts the association alone. The chunks are lent, so that no exit drops them.
    fn start(
        &mut self,
        client: bool,
        now: Moment,
        snap: &Option<SctpInitData>,
        max: u32,
    ) -> Result<(), SctpError>
        ensures fresh { OnOk result (S.association.started self.old.association ≡ false) }
        ensures asked { OnOk result (AsksInit S.association snap.now client self.old.association now max Done self.new.association) }
        ensures others { OnOk result (self.new ≡ record self.old { association = self.new.association; rests = false }) }
        ensures refused { IfErr result (λ error. Inits S.association client now max snap.now self.old (Err error) self.new) }
    {
        if self.association.is_started() {
            return Err(SctpError::Proto(ProtoError::Started));
        }
        if !are_whole(snap) {
            return Err(SctpError::Proto(ProtoError::SnapHalf));
        }
        self.rests = false;
        match ask_start(&mut self.association, snap, client, now, max) {
            Asked::Done => Ok(()),
            Asked::Refused => Err(SctpError::Proto(ProtoError::Fault)),
            Asked::OutOfMemory => Err(SctpError::Alloc),
        }
    }

    // Keeps what the association was started with, and makes room for the first packet and the first event, or keeps that this failed.
    fn begin(&mut self, client: bool, max: u32, snap: Option<SctpInitData>)
        ensures { self.new ≡ record self.old {
          client = client;
          remote_max = max;
          state = BegunState snap client;
          snap = begun_halves snap self.old.snap;
          rests = false;
        } }
    {
        self.client = client;
        self.remote_max = max;
        self.state = begun_state(&snap, client);
        self.snap.begin(snap);
        self.rests = false;
        let packet = self.room.reserve(1).is_ok();
        let event = make_room(&mut self.entries, &mut self.resets, &mut self.completed);
        self.lacks_room = !(packet && event);
    }

    /// Starts the association. `snap` has the SNAP INIT chunks: with both it is established at once. `remote_max` is
    /// the longest message that the other end takes, in bytes, if its session description carries it.
    pub fn init(
        &mut self,
        client: bool,
        now: Moment,
        snap: Option<SctpInitData>,
        remote_max: Option<u32>,
    ) -> Result<(), SctpError>
        ensures inits { Inits S.association client now (LimitOrDefault remote_max) snap self.old result self.new }
        ensures refused { IsRefusedAs (refusal_of_start S.association snap self.old)
            (S.association.faults self.old.association) (S.association.faults self.new.association) result }
    {
        let max = limit_or_default(remote_max);
        match self.start(client, now, &snap, max) {
            Ok(()) => {
                self.begin(client, max, snap);
                Ok(())
            }
            Err(error) => release(snap, Err(error)),
        }
    }

    pub(crate) fn is_ended(&self) -> bool
        ensures { result ≡ IsEnded S.association self.now.association }
    {
        if self.association.is_started() {
            return self.association.is_closing() || self.association.is_closed();
        }
        true
    }

    fn shut(&mut self) -> Result<(), SctpError>
        ensures { Shuts S.association self.old result self.new }
    {
        if self.is_ended() {
            return Ok(());
        }
        self.rests = false;
        match part::shut(&mut self.association) {
            Asked::Done => Ok(()),
            Asked::Refused => Err(SctpError::Proto(ProtoError::Fault)),
            Asked::OutOfMemory => Err(SctpError::Alloc),
        }
    }

    /// Shuts the association down, if it was started and is neither closing nor closed.
    pub fn close(&mut self) -> Result<(), SctpError>
        ensures shuts { Shuts S.association self.old result self.new }
        ensures refused { IsRefusedAs None (S.association.faults self.old.association)
            (S.association.faults self.new.association) result }
    {
        self.shut()
    }
}
