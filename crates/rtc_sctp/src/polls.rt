//! The polls of streams.
ghost use Rattle.std.specs.Prelude.{◌≡◌, true, false, []};
ghost use Rattle.rtc_sctp_entries.specs.Entries.{unclosed};
ghost use Rattle.rtc_sctp.specs.Polls.{TakesPacket, GivesTransmit, TakesEvent, HandlesEvent, book, VisitsEntries};
ghost use Rattle.rtc_sctp.specs.Polls.{GivesCompletion, AreResting, TakesSteps, RestsBy, MakesPass, PollsStreams};
ghost use Rattle.rtc_sctp.specs.Polls.{unclosed_streams};
ghost use Rattle.rtc_sctp.specs.Rest.{AreTended, AreUnclosed};

use crate::agenda::Agenda;
use crate::events::{apply_event_with_room, make_room};
use crate::streams::RtcSctp;
use crate::walk::visit_all;
use crate::{RtcSctpState, SctpEvent, StreamEntry};
use rtc_parts::Association;
use rtc_sctp_entries::Met;
use rtc_sctp_entries::entries::drop_closed;
use rtc_wire::{Bytes, Seq};
use std::alloc::{AllocError, Global};
use std::collections::VecDeque;
use std::mem;

// One packet of an association. There is room for it before it is taken; the room for the next one is made with it, and kept until then.
// A poll that finds that room ahead was refused reports it.
fn take_packet<S: Association>(
    alloc: Global,
    room: &mut Vec<Bytes>,
    lacks_room: &mut bool,
    association: &mut S,
) -> Met
    ensures { TakesPacket S.association association.old result association.new }
{
    room.clear();
    if mem::replace(lacks_room, false) || room.reserve(1).is_err() {
        return Met::OutOfMemory;
    }
    let Some(packet) = association.poll_transmit() else {
        return Met::Nothing;
    };
    let mut packets = mem::replace(room, Vec::new(alloc));
    packets.push_reserved(Bytes::new(packet));
    *lacks_room = room.reserve(1).is_err();
    Met::Output(SctpEvent::Transmit {
        packets: Seq::new(packets),
    })
}

// Takes one event of an association that was started. Room for what it may add is made before.
fn take_event<S: Association>(
    association: &mut S,
    state: &mut RtcSctpState,
    entries: &mut Vec<StreamEntry>,
    resets: &mut Vec<u16>,
    completed: &mut VecDeque<u16>,
    agenda: &mut Agenda,
    lacks_room: &mut bool,
) -> Met
    requires { AreTended S.association association.old entries.old.items agenda.old }
    ensures tended { AreTended S.association association.new entries.new.items agenda.new }
    ensures takes { TakesEvent S.association
        association.old (book state.old entries.old.items resets.old.items completed.old.items) result
        association.new (book state.new entries.new.items resets.new.items completed.new.items) }
{
    if !association.is_started() {
        return Met::Nothing;
    }
    if !make_room(entries, resets, completed) {
        return Met::OutOfMemory;
    }
    let Some(event) = association.poll() else {
        return Met::Nothing;
    };
    apply_event_with_room(event, state, entries, resets, completed, agenda, lacks_room)
}

/// Drops the closed entries, if there are any.
pub(crate) fn sweep(entries: &mut Vec<StreamEntry>, agenda: &mut Agenda)
    requires { agenda.old.closed ≡ false → AreUnclosed entries.old.items }
    ensures entries { entries.new.items ≡ unclosed entries.old.items }
    ensures streams { (agenda.new.streams ≡ agenda.old.streams) × (agenda.new.buffered ≡ agenda.old.buffered) }
    ensures closed { agenda.new.closed ≡ false }
{
    if agenda.closed {
        drop_closed(entries);
        agenda.closed = false;
    }
}

impl<S: Association> RtcSctp<S> {
    fn give_transmit(&mut self) -> Met
        requires { self.old.rests ≡ false }
        ensures { GivesTransmit S.association self.old result self.new }
    {
        match self.pushed.take() {
            Some(packets) => Met::Output(SctpEvent::Transmit { packets }),
            None => {
                if self.association.is_started() {
                    return take_packet(
                        self.alloc,
                        &mut self.room,
                        &mut self.lacks_room,
                        &mut self.association,
                    );
                }
                Met::Nothing
            }
        }
    }

    fn take_event(&mut self) -> Met
        requires { self.old.rests ≡ false }
        ensures { HandlesEvent S.association self.old result self.new }
    {
        take_event(
            &mut self.association,
            &mut self.state,
            &mut self.entries,
            &mut self.resets,
            &mut self.completed,
            &mut self.agenda,
            &mut self.lacks_room,
        )
    }

    // No event of the association is due.
    fn visit_entries(&mut self) -> Met
        requires quiet { S.association.started self.old.association ≡ true → S.association.due self.old.association ≡ [] }
        requires awake { self.old.rests ≡ false }
        ensures { VisitsEntries S.association self.old result self.new }
    {
        if self.state.is_established() && self.association.is_started() {
            return visit_all(
                self.alloc,
                self.last,
                &mut self.association,
                &mut self.entries,
                &mut self.resets,
                &mut self.agenda,
            );
        }
        Met::Nothing
    }

    // The steps before gave nothing: with no completion left the streams rest.
    fn give_completion(&mut self) -> Met
        requires awake { self.old.rests ≡ false }
        requires resting { AreResting S.association self.old.association self.old.state self.old.last self.old.entries }
        ensures { GivesCompletion self.old result self.new }
    {
        match self.completed.pop_front() {
            None => {
                self.rests = true;
                Met::Nothing
            }
            Some(id) => Met::Output(SctpEvent::StreamResetComplete { id }),
        }
    }

    fn drop_closed_entries(&mut self)
        requires { self.old.rests ≡ false }
        ensures { self.new ≡ unclosed_streams self.old }
    {
        sweep(&mut self.entries, &mut self.agenda);
    }

    fn is_resting(&self) -> bool
        ensures rests { result ≡ self.now.rests }
        ensures left { self.now.rests ≡ true
            → AreResting S.association self.now.association self.now.state self.now.last self.now.entries }
    {
        self.rests
    }

    // What streams at rest give.
    fn give_pushed(&mut self) -> Met
        ensures { RestsBy self.old.pushed self.old result self.new }
    {
        match self.pushed.take() {
            Some(packets) => Met::Output(SctpEvent::Transmit { packets }),
            None => Met::Nothing,
        }
    }

    // Takes the six steps once.
    fn take_steps(&mut self) -> Met
        requires { self.old.rests ≡ false }
        ensures { TakesSteps S.association self.old result self.new }
    {
        self.drop_closed_entries();
        match self.give_transmit() {
            Met::Nothing => {}
            met => return met,
        }
        match self.take_event() {
            Met::Nothing => {}
            met => return met,
        }
        match self.visit_entries() {
            Met::Nothing => {}
            met => return met,
        }
        self.give_completion()
    }

    fn pass(&mut self) -> Met
        ensures { MakesPass S.association self.old result self.new }
    {
        if self.is_resting() {
            return self.give_pushed();
        }
        self.take_steps()
    }

    /// The next of what the streams give.
    pub fn do_poll(&mut self) -> Result<Option<SctpEvent>, AllocError>
        ensures { PollsStreams S.association self.old result self.new }
    {
        'passes: loop {
            match self.pass() {
                Met::Again => {}
                Met::Nothing => return Ok(None),
                Met::Output(event) => return Ok(Some(event)),
                Met::OutOfMemory => return Err(AllocError),
            }
        }
    }

    /// The next of what the streams give.
    pub fn poll(&mut self) -> Result<Option<SctpEvent>, AllocError>
        ensures { PollsStreams S.association self.old result self.new }
    {
        self.do_poll()
    }
}
