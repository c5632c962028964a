//! Inputs and closes of a step.
ghost use Rattle.std.specs.Prelude.{◌≡◌, ◌<◌, ◌^◌, ◌≤◌, length};
ghost use Rattle.std.specs.Option.{option_copied};
ghost use Rattle.rtc_wire.specs.DatagramRecv.{kind_by};
ghost use Rattle.rtc_run_history.specs.PairState.{remote_packet};
ghost use Rattle.rtc_run_history.specs.CallReplies.{StepCalls};
ghost use Rattle.rtc_run_history.specs.Performs.{HandlesRead, StepTakesDatagram, raw_datagram};
ghost use Rattle.rtc_run_steps.specs.OutcomeOf.{outcome_of};
ghost use Rattle.rtc_peer_core.specs.Meanings.{meanings};
ghost use Rattle.rtc_peer_transport.specs.Closing.{ClosesPeer};
ghost use Rattle.rtc_peer_polling.specs.Inputs.{HandlesInput};
ghost use Rattle.rtc_peer_transport.specs.declared.input.Input.TheVariants as given;
ghost use Rattle.rtc_peer.specs.CachedPeer.{polled_of};

use crate::{is_same_side, reply_no_memory, reply_no_such, reply_with, room_for};
use rtc_peer::{Association, DtlsInstance, IceAgent, Ids, Input, MediaSession, Rtc, RtcError};
use rtc_run_history::{Outcome, Reply, SentPacket, Side};
use rtc_wire::{Addr, Moment, Protocol, Receive, Transmit};
use std::alloc::Global;

/// The outcome of a call that returns nothing but whether it is refused.
pub fn outcome_of<E>(answer: Result<(), RtcError>) -> Outcome<E>
    ensures { result ≡ outcome_of answer }
{
    match answer {
        Ok(()) => Outcome::Done,
        Err(error) => Outcome::Refused(error),
    }
}

/// Gives a peer a moment.
pub fn take_moment<I: IceAgent, D: DtlsInstance, S: Association, M: MediaSession, N: Ids>(
    alloc: Global,
    rtc: &mut Rtc<I, D, S, M, N>,
    now: Moment,
) -> Reply<M::E>
    ensures { StepCalls (meanings I.ice D.dtls S.association M.media N.ids)
        (HandlesInput (meanings I.ice D.dtls S.association M.media N.ids) (given.Timeout now))
        (polled_of rtc.old) result.outcome result.table (polled_of rtc.new) }
{
    let Ok(room) = room_for(alloc, rtc, 0, 0) else {
        return reply_no_memory();
    };
    let answer = rtc.handle_input(&Input::Timeout(now));
    reply_with(outcome_of(answer), room, rtc)
}

// The datagram of a number, if the other side sent it.
fn find_packet(packets: &[SentPacket], at: Side, number: u64) -> Option<&Transmit>
    ensures { option_copied result ≡ remote_packet packets.now at number }
{
    match packets.get(number as usize) {
        None => None,
        Some(sent) => {
            if is_same_side(sent.at, at) {
                None
            } else {
                Some(&sent.transmit)
            }
        }
    }
}

// Gives a peer a datagram at the address that it was sent to, if it has the form of its kind.
#[tactic(auto, using(crate::proofs::PollsKeep::lines_after_input))]
fn give_datagram<I: IceAgent, D: DtlsInstance, S: Association, M: MediaSession, N: Ids>(
    rtc: &mut Rtc<I, D, S, M, N>,
    transmit: &Transmit,
    now: Moment,
) -> Result<(), RtcError>
    ensures handles { HandlesRead (meanings I.ice D.dtls S.association M.media N.ids)
        (kind_by I.stun transmit.now.contents) transmit.now now (polled_of rtc.old) result (polled_of rtc.new) }
    ensures lines { rtc.new.core.lines ≡ rtc.old.core.lines }
    ensures channels { length rtc.new.core.channels.rows ≤ length rtc.old.core.channels.rows }
{
    match Receive::from_transmit::<I>(transmit) {
        Ok(datagram) => rtc.handle_input(&Input::Receive(now, datagram)),
        Err(why) => Err(RtcError::Net(why)),
    }
}

/// Gives a peer the datagram of a number, if the other side sent it.
pub fn take_datagram<I: IceAgent, D: DtlsInstance, S: Association, M: MediaSession, N: Ids>(
    alloc: Global,
    rtc: &mut Rtc<I, D, S, M, N>,
    packets: &[SentPacket],
    at: Side,
    packet: u64,
    now: Moment,
) -> Reply<M::E>
    ensures { StepTakesDatagram (meanings I.ice D.dtls S.association M.media N.ids)
        I.stun (remote_packet packets.now at packet) now (polled_of rtc.old) result.outcome result.table (polled_of rtc.new) }
{
    let Some(transmit) = find_packet(packets, at, packet) else {
        return reply_no_such(alloc, rtc);
    };
    let Ok(room) = room_for(alloc, rtc, 0, 0) else {
        return reply_no_memory();
    };
    let answer = give_datagram(rtc, transmit, now);
    reply_with(outcome_of(answer), room, rtc)
}

// Gives a peer bytes as a UDP datagram, if they have the form of their kind.
#[tactic(auto, using(crate::proofs::PollsKeep::lines_after_input))]
fn give_raw<I: IceAgent, D: DtlsInstance, S: Association, M: MediaSession, N: Ids>(
    rtc: &mut Rtc<I, D, S, M, N>,
    other: Addr,
    own: Addr,
    bytes: &[u8],
    now: Moment,
) -> Result<(), RtcError>
    ensures handles { HandlesRead (meanings I.ice D.dtls S.association M.media N.ids)
        (kind_by I.stun bytes.now) (raw_datagram other own bytes.now) now (polled_of rtc.old) result (polled_of rtc.new) }
    ensures lines { rtc.new.core.lines ≡ rtc.old.core.lines }
    ensures channels { length rtc.new.core.channels.rows ≤ length rtc.old.core.channels.rows }
{
    match Receive::new::<I>(Protocol::Udp, other, own, bytes) {
        Ok(datagram) => rtc.handle_input(&Input::Receive(now, datagram)),
        Err(why) => Err(RtcError::Net(why)),
    }
}

/// Gives a peer bytes of anybody, as a UDP datagram from the address of the other side to its own.
pub fn take_raw<I: IceAgent, D: DtlsInstance, S: Association, M: MediaSession, N: Ids>(
    alloc: Global,
    rtc: &mut Rtc<I, D, S, M, N>,
    other: Addr,
    own: Addr,
    bytes: &[u8],
    now: Moment,
) -> Reply<M::E>
    ensures { StepCalls (meanings I.ice D.dtls S.association M.media N.ids)
        (HandlesRead (meanings I.ice D.dtls S.association M.media N.ids)
        (kind_by I.stun bytes.now) (raw_datagram other own bytes.now) now)
        (polled_of rtc.old) result.outcome result.table (polled_of rtc.new) }
{
    let Ok(room) = room_for(alloc, rtc, 0, 0) else {
        return reply_no_memory();
    };
    let answer = give_raw(rtc, other, own, bytes, now);
    reply_with(outcome_of(answer), room, rtc)
}

/// Begins to close a peer.
pub fn close<I: IceAgent, D: DtlsInstance, S: Association, M: MediaSession, N: Ids>(
    alloc: Global,
    rtc: &mut Rtc<I, D, S, M, N>,
) -> Reply<M::E>
    ensures { StepCalls (meanings I.ice D.dtls S.association M.media N.ids)
        (ClosesPeer (meanings I.ice D.dtls S.association M.media N.ids))
        (polled_of rtc.old) result.outcome result.table (polled_of rtc.new) }
{
    let Ok(room) = room_for(alloc, rtc, 0, 0) else {
        return reply_no_memory();
    };
    let answer = rtc.close();
    reply_with(outcome_of(answer), room, rtc)
}
