//! Writes to channels of a step, and closes of them.
ghost use Rattle.std.specs.Prelude.{◌≡◌, ◌≤◌, is_some, length};
ghost use Rattle.rtc_run_history.specs.CallReplies.{ClosesOpenChannel, StepCalls, StepClosesChannel, StepWrites};
ghost use Rattle.rtc_peer_core.specs.Meanings.{meanings};
ghost use Rattle.rtc_peer_transport.specs.ChannelCalls.{open_stream_under};
ghost use Rattle.rtc_run_steps.specs.Written.{WritesIfOpen, written_outcome};
ghost use Rattle.rtc_peer.specs.CachedPeer.{polled_of};

use crate::hearing::outcome_of;
use crate::{reply_no_memory, reply_no_such, reply_with, room_for};
use rtc_peer::{Association, DtlsInstance, IceAgent, Ids, MediaSession, Rtc, RtcError};
use rtc_run_history::{Outcome, Reply};
use rtc_wire::ChannelId;
use std::alloc::Global;

// The outcome of a write, which returns nothing if there is no such channel that is open.
fn outcome_of_write<E>(answer: Option<Result<bool, RtcError>>) -> Outcome<E>
    ensures { result ≡ written_outcome answer }
{
    match answer {
        None => Outcome::NoSuch,
        Some(written) => match written {
            Ok(taken) => Outcome::Wrote { taken },
            Err(error) => Outcome::Refused(error),
        },
    }
}

// Writes a message to the channel of a number, if it is open.
fn write_if_open<I: IceAgent, D: DtlsInstance, S: Association, M: MediaSession, N: Ids>(
    rtc: &mut Rtc<I, D, S, M, N>,
    id: ChannelId,
    binary: bool,
    bytes: &[u8],
) -> Option<Result<bool, RtcError>>
    ensures writes { WritesIfOpen (meanings I.ice D.dtls S.association M.media N.ids)
        (open_stream_under id (polled_of rtc.old)) binary bytes.now (polled_of rtc.old) result (polled_of rtc.new) }
    ensures lines { rtc.new.core.lines ≡ rtc.old.core.lines }
    ensures channels { length rtc.new.core.channels.rows ≤ length rtc.old.core.channels.rows }
{
    match rtc.channel(id) {
        Some(mut channel) => Some(channel.write(binary, bytes)),
        None => None,
    }
}

/// Writes a message to the channel of a number.
pub fn write_message<I: IceAgent, D: DtlsInstance, S: Association, M: MediaSession, N: Ids>(
    alloc: Global,
    rtc: &mut Rtc<I, D, S, M, N>,
    id: ChannelId,
    binary: bool,
    bytes: &[u8],
) -> Reply<M::E>
    ensures { StepWrites (meanings I.ice D.dtls S.association M.media N.ids)
        (open_stream_under id (polled_of rtc.old)) binary bytes.now (polled_of rtc.old) result.outcome result.table (polled_of rtc.new) }
{
    let Ok(room) = room_for(alloc, rtc, 0, 0) else {
        return reply_no_memory();
    };
    let answer = write_if_open(rtc, id, binary, bytes);
    reply_with(outcome_of_write(answer), room, rtc)
}

// Whether the channel of a number is open.
fn is_open_channel<I: IceAgent, D: DtlsInstance, S: Association, M: MediaSession, N: Ids>(
    rtc: &mut Rtc<I, D, S, M, N>,
    id: ChannelId,
) -> bool
    ensures open { result ≡ is_some (open_stream_under id (polled_of rtc.old)) }
    ensures same { polled_of rtc.new ≡ polled_of rtc.old }
{
    match rtc.channel(id) {
        Some(_channel) => true,
        None => false,
    }
}

// Closes the channel of a number.
fn shut_channel<I: IceAgent, D: DtlsInstance, S: Association, M: MediaSession, N: Ids>(
    rtc: &mut Rtc<I, D, S, M, N>,
    id: ChannelId,
) -> Result<(), RtcError>
    ensures closes { ClosesOpenChannel (meanings I.ice D.dtls S.association M.media N.ids) id (polled_of rtc.old)
        result (polled_of rtc.new) }
    ensures lines { rtc.new.core.lines ≡ rtc.old.core.lines }
    ensures channels { length rtc.new.core.channels.rows ≤ length rtc.old.core.channels.rows }
{
    match rtc.close_data_channel(id) {
        Ok(()) => Ok(()),
        Err(_) => Err(RtcError::Alloc),
    }
}

// Closes the channel of a number, which is open.
fn close_open_channel<I: IceAgent, D: DtlsInstance, S: Association, M: MediaSession, N: Ids>(
    alloc: Global,
    rtc: &mut Rtc<I, D, S, M, N>,
    id: ChannelId,
) -> Reply<M::E>
    ensures { StepCalls (meanings I.ice D.dtls S.association M.media N.ids)
        (ClosesOpenChannel (meanings I.ice D.dtls S.association M.media N.ids) id)
        (polled_of rtc.old) result.outcome result.table (polled_of rtc.new) }
{
    let Ok(room) = room_for(alloc, rtc, 0, 0) else {
        return reply_no_memory();
    };
    let answer = shut_channel(rtc, id);
    reply_with(outcome_of(answer), room, rtc)
}

/// Closes the channel of a number.
pub fn close_channel<I: IceAgent, D: DtlsInstance, S: Association, M: MediaSession, N: Ids>(
    alloc: Global,
    rtc: &mut Rtc<I, D, S, M, N>,
    id: ChannelId,
) -> Reply<M::E>
    ensures { StepClosesChannel (meanings I.ice D.dtls S.association M.media N.ids)
        (open_stream_under id (polled_of rtc.old)) id (polled_of rtc.old) result.outcome result.table (polled_of rtc.new) }
{
    if is_open_channel(rtc, id) {
        close_open_channel(alloc, rtc, id)
    } else {
        reply_no_such(alloc, rtc)
    }
}
