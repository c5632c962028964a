//! Polls of a step.
ghost use Rattle.std.specs.Prelude.{◌≡◌, ◌+◌, ◌<◌, ◌≤◌, ◌^◌, ◌++◌, [], ◌∷◌, length, IfOk, OnOk, vec_capacity, vec_len, if◌then◌else◌};
ghost use Rattle.rtc_run_history.specs.Performs.{DrainsPeer, PollsOnce, StepPollsPeer, sent_packet};
ghost use Rattle.rtc_run_history.specs.declared.outcome.Outcome.TheVariants.{Polled};
ghost use Rattle.rtc_run_history.specs.declared.shown.Shown.TheVariants.{Packet};
ghost use Rattle.rtc_peer_core.specs.Meanings.{meanings};
ghost use Rattle.rtc_run_steps.specs.Turns.{TakesTurn, ShowsOutput, end_of, is_timeout, moment_of};
ghost use Rattle.rtc_run_steps.specs.declared.turn.Turn.TheVariants.{More, Over};
ghost use Rattle.rtc_peer.specs.CachedPeer.{polled_of};

use crate::turn::Turn;
use crate::{Room, make_channel_room, reply_no_memory, reply_with, room_for};
use rtc_channels::ChannelRow;
use rtc_parts::Reason;
use rtc_peer::{Association, DtlsInstance, IceAgent, Ids, MediaSession, Output, Rtc};
use rtc_run_history::{Outcome, PollEnd, Reply, SentPacket, Shown, Side};
use rtc_wire::{Moment, Seq, Transmit};
use std::alloc::{AllocError, Global};

// Keeps a datagram under the next number, and shows it.
fn keep_packet<E>(packets: &mut Vec<SentPacket>, at: Side, transmit: Transmit) -> Shown<E>
    requires { vec_len packets.old < vec_capacity packets.old }
    ensures kept { packets.new.items ≡ packets.old.items ++ sent_packet at transmit ∷ [] }
    ensures shown { result ≡ Packet (length packets.old.items) (length transmit.contents) }
{
    let number = packets.len() as u64;
    let len = transmit.contents.as_slice().len();
    packets.push_reserved(SentPacket { at, transmit });
    Shown::Packet { number, len }
}

// The moment that a timeout has. It means nothing of another output.
fn moment_of<E>(output: &Output<E>) -> Moment
    ensures { result ≡ moment_of output.now }
{
    match output {
        Output::Timeout(moment) => *moment,
        _ => Moment::FAR_FUTURE,
    }
}

// Shows an output: a timeout with its reason, and a datagram by the number under which it is kept.
fn show_output<E>(
    output: Output<E>,
    reason: Reason,
    at: Side,
    packets: &mut Vec<SentPacket>,
) -> Shown<E>
    requires { vec_len packets.old < vec_capacity packets.old }
    ensures shows { ShowsOutput at packets.old.items reason output result packets.new.items }
{
    let moment = moment_of(&output);
    match output {
        Output::Timeout(_) => Shown::Timeout(moment, reason),
        Output::Transmit(transmit) => keep_packet(packets, at, transmit),
        Output::Event(event) => Shown::Event(event),
    }
}

fn is_timeout<E>(shown: &Shown<E>) -> bool
    ensures { result ≡ is_timeout shown.now }
{
    match shown {
        Shown::Timeout(_, _) => true,
        Shown::Packet { .. } => false,
        Shown::Event(_) => false,
    }
}

// Puts an output behind those that are shown, and says whether it is a timeout.
fn put_output<E>(outputs: &mut Vec<Shown<E>>, shown: Shown<E>) -> Turn
    requires { vec_len outputs.old < vec_capacity outputs.old }
    ensures put { outputs.new.items ≡ outputs.old.items ++ shown ∷ [] }
    ensures turn { result ≡ (if is_timeout shown then Over else More) }
{
    let over = is_timeout(&shown);
    outputs.push_reserved(shown);
    if over { Turn::Over } else { Turn::More }
}

// Polls a peer once, keeps the datagram that it sends, and puts its output behind those that are shown.
#[tactic(auto, using(crate::proofs::PollsKeep::lines_after_poll))]
fn take_turn<I: IceAgent, D: DtlsInstance, S: Association, M: MediaSession, N: Ids>(
    rtc: &mut Rtc<I, D, S, M, N>,
    at: Side,
    packets: &mut Vec<SentPacket>,
    outputs: &mut Vec<Shown<M::E>>,
) -> Turn
    requires packet { vec_len packets.old < vec_capacity packets.old }
    requires output { vec_len outputs.old < vec_capacity outputs.old }
    ensures takes { TakesTurn (meanings I.ice D.dtls S.association M.media N.ids)
        at (polled_of rtc.old) packets.old.items outputs.old.items result (polled_of rtc.new) packets.new.items outputs.new.items }
    ensures lines { rtc.new.core.lines ≡ rtc.old.core.lines }
    ensures channels { length rtc.new.core.channels.rows ≤ length rtc.old.core.channels.rows + 1 }
{
    match rtc.poll_output() {
        Ok(output) => {
            let reason = rtc.last_timeout_reason();
            let shown = show_output(output, reason, at, packets);
            put_output(outputs, shown)
        }
        Err(error) => Turn::Refused(error),
    }
}

// Room for one more output, for one more datagram, and for the row of one more channel.
fn make_room<I: IceAgent, D: DtlsInstance, S: Association, M: MediaSession, N: Ids>(
    rtc: &Rtc<I, D, S, M, N>,
    outputs: &mut Vec<Shown<M::E>>,
    packets: &mut Vec<SentPacket>,
    channels: &mut Vec<ChannelRow>,
) -> Result<(), AllocError>
    requires { length rtc.now.core.channels.rows ≤ vec_capacity channels.old }
    ensures output { OnOk result (vec_len outputs.new < vec_capacity outputs.new) }
    ensures packet { OnOk result (vec_len packets.new < vec_capacity packets.new) }
    ensures channel { OnOk result (length rtc.now.core.channels.rows + 1 ≤ vec_capacity channels.new) }
    ensures outputs { outputs.new.items ≡ outputs.old.items }
    ensures packets { packets.new.items ≡ packets.old.items }
    ensures no_channels { channels.new.items ≡ channels.old.items }
    ensures kept { vec_capacity channels.old ≤ vec_capacity channels.new }
{
    outputs.reserve(1)?;
    packets.reserve(1)?;
    make_channel_room(rtc, channels)?;
    Ok(())
}

// Polls a peer up to a timeout or an error, or until there is no room for one more poll. There is room for one.
fn drain_outputs<I: IceAgent, D: DtlsInstance, S: Association, M: MediaSession, N: Ids>(
    rtc: &mut Rtc<I, D, S, M, N>,
    at: Side,
    packets: &mut Vec<SentPacket>,
    outputs: &mut Vec<Shown<M::E>>,
    channels: &mut Vec<ChannelRow>,
) -> PollEnd
    requires packet { vec_len packets.old < vec_capacity packets.old }
    requires output { vec_len outputs.old < vec_capacity outputs.old }
    requires channel { length rtc.old.core.channels.rows + 1 ≤ vec_capacity channels.old }
    requires empty { outputs.old.items ≡ [] }
    ensures drains { DrainsPeer (meanings I.ice D.dtls S.association M.media N.ids)
        at (polled_of rtc.old) packets.old.items outputs.new.items result (polled_of rtc.new) packets.new.items }
    ensures lines { rtc.new.core.lines ≡ rtc.old.core.lines }
    ensures channels { length rtc.new.core.channels.rows ≤ vec_capacity channels.new }
    ensures no_channels { channels.new.items ≡ channels.old.items }
{
    for turn in 0..u64::MAX {
        match take_turn(rtc, at, packets, outputs) {
            Turn::More => {}
            Turn::Over => return PollEnd::Ended,
            Turn::Refused(error) => return PollEnd::Refused(error),
        }
        if make_room(rtc, outputs, packets, channels).is_err() {
            return PollEnd::NoRoom;
        }
    }
    PollEnd::NoRoom
}

// Room for the table of a peer whose polls may add a channel, for a datagram, and for an output.
fn make_first_room<I: IceAgent, D: DtlsInstance, S: Association, M: MediaSession, N: Ids>(
    alloc: Global,
    rtc: &Rtc<I, D, S, M, N>,
    packets: &mut Vec<SentPacket>,
) -> Result<(Vec<Shown<M::E>>, Room), AllocError>
    ensures no_outputs { IfOk result (λ made. made.0.items ≡ []) }
    ensures output { IfOk result (λ made. vec_len made.0 < vec_capacity made.0) }
    ensures no_lines { IfOk result (λ made. made.1.lines.items ≡ []) }
    ensures no_channels { IfOk result (λ made. made.1.channels.items ≡ []) }
    ensures lines { IfOk result (λ made. length rtc.now.core.lines ≤ vec_capacity made.1.lines) }
    ensures channels { IfOk result (λ made. length rtc.now.core.channels.rows + 1 ≤ vec_capacity made.1.channels) }
    ensures packet { OnOk result (vec_len packets.new < vec_capacity packets.new) }
    ensures packets { packets.new.items ≡ packets.old.items }
{
    packets.reserve(1)?;
    let room = room_for(alloc, rtc, 0, 1)?;
    let outputs = Vec::with_capacity(alloc, 1)?;
    Ok((outputs, room))
}

// The outcome of polls.
fn polled<E>(outputs: Vec<Shown<E>>, end: PollEnd) -> Outcome<E>
    ensures { result ≡ Polled outputs.items end }
{
    let outputs = Seq::new(outputs);
    Outcome::Polled { outputs, end }
}

// What ended a step of one turn.
fn end_of(turn: Turn) -> PollEnd
    ensures { result ≡ end_of turn }
{
    match turn {
        Turn::More => PollEnd::Ended,
        Turn::Over => PollEnd::Ended,
        Turn::Refused(error) => PollEnd::Refused(error),
    }
}

/// Polls a peer once.
pub fn poll<I: IceAgent, D: DtlsInstance, S: Association, M: MediaSession, N: Ids>(
    alloc: Global,
    rtc: &mut Rtc<I, D, S, M, N>,
    packets: &mut Vec<SentPacket>,
    at: Side,
) -> Reply<M::E>
    ensures { StepPollsPeer (meanings I.ice D.dtls S.association M.media N.ids)
        (PollsOnce (meanings I.ice D.dtls S.association M.media N.ids) at (polled_of rtc.old))
        (polled_of rtc.old) packets.old.items result.outcome result.table (polled_of rtc.new) packets.new.items }
{
    let Ok((outputs, room)) = make_first_room(alloc, rtc, packets) else {
        return reply_no_memory();
    };
    let mut outputs = outputs;
    let turn = take_turn(rtc, at, packets, &mut outputs);
    reply_with(polled(outputs, end_of(turn)), room, rtc)
}

/// Polls a peer up to a timeout or an error, or until there is no room for one more poll.
pub fn drain<I: IceAgent, D: DtlsInstance, S: Association, M: MediaSession, N: Ids>(
    alloc: Global,
    rtc: &mut Rtc<I, D, S, M, N>,
    packets: &mut Vec<SentPacket>,
    at: Side,
) -> Reply<M::E>
    ensures { StepPollsPeer (meanings I.ice D.dtls S.association M.media N.ids)
        (DrainsPeer (meanings I.ice D.dtls S.association M.media N.ids) at (polled_of rtc.old))
        (polled_of rtc.old) packets.old.items result.outcome result.table (polled_of rtc.new) packets.new.items }
{
    let Ok((outputs, room)) = make_first_room(alloc, rtc, packets) else {
        return reply_no_memory();
    };
    let mut outputs = outputs;
    let mut room = room;
    let end = drain_outputs(rtc, at, packets, &mut outputs, &mut room.channels);
    reply_with(polled(outputs, end), room, rtc)
}
