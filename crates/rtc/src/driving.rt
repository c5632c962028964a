//! The loop that drives a peer.
ghost use Rattle.rtc_peer_core.specs.Meanings.{meanings};
ghost use Rattle.rtc.specs.Drives.{DrainsInto, Drives, HandsNext};
ghost use Rattle.rtc_peer.specs.CachedPeer.{polled_of};

use crate::Sink;
use crate::handed::{Handed, hand};
use rtc_peer::{Association, DtlsInstance, IceAgent, Ids, Input, MediaSession, Rtc, RtcError};
use rtc_wire::Moment;

// Polls a peer once, and passes its output to the sink.
fn hand_next<I: IceAgent, D: DtlsInstance, S: Association, M: MediaSession, N: Ids, K: Sink<M::E>>(
    peer: &mut Rtc<I, D, S, M, N>,
    sink: &mut K,
) -> Handed
    ensures { HandsNext (meanings I.ice D.dtls S.association M.media N.ids) K.sink
        (polled_of peer.old) sink.old result (polled_of peer.new) sink.new }
{
    match peer.poll_output() {
        Ok(output) => hand(sink, output),
        Err(error) => Handed::Failed(error),
    }
}

// Polls a peer until it waits, or the poll or the sink fails.
fn drain<I: IceAgent, D: DtlsInstance, S: Association, M: MediaSession, N: Ids, K: Sink<M::E>>(
    peer: &mut Rtc<I, D, S, M, N>,
    now: Moment,
    sink: &mut K,
) -> Result<Moment, RtcError>
    ensures { DrainsInto (meanings I.ice D.dtls S.association M.media N.ids) K.sink
        now (polled_of peer.old) sink.old result (polled_of peer.new) sink.new }
{
    for turn in 0..u64::MAX {
        match hand_next(peer, sink) {
            Handed::More => {}
            Handed::Until(moment) => return Ok(moment),
            Handed::Failed(error) => return Err(error),
        }
    }
    Ok(now)
}

/// Gives a peer the moment, passes all its outputs to the sink, and returns the moment at which it wants the next call.
///
/// Call it at that moment, and after every other call on the peer. After 2^64 - 1 outputs it returns `now`.
pub fn drive<I: IceAgent, D: DtlsInstance, S: Association, M: MediaSession, N: Ids, K: Sink<M::E>>(
    peer: &mut Rtc<I, D, S, M, N>,
    now: Moment,
    sink: &mut K,
) -> Result<Moment, RtcError>
    ensures { Drives (meanings I.ice D.dtls S.association M.media N.ids) K.sink
        now (polled_of peer.old) sink.old result (polled_of peer.new) sink.new }
{
    match peer.handle_input(&Input::Timeout(now)) {
        Ok(()) => drain(peer, now, sink),
        Err(error) => Err(error),
    }
}
