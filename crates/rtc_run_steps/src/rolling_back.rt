//! Offers that a step rolls back.
ghost use Rattle.std.specs.Prelude.{◌≡◌, ◌≤◌, length};
ghost use Rattle.rtc_peer_core.specs.RollingBack.{RollsBack};
ghost use Rattle.rtc_run_history.specs.PairState.{held_token};
ghost use Rattle.rtc_run_history.specs.Performs.{StepRollsBack, lent};
ghost use Rattle.rtc_peer_core.specs.Meanings.{meanings};

use crate::accepting::take_token;
use crate::{reply_no_memory, reply_with, room_for};
use rtc_change::SdpPendingOffer;
use rtc_peer::{Association, DtlsInstance, IceAgent, Ids, MediaSession, Rtc, RtcError};
use rtc_run_history::{Kept, Outcome, Reply, Side};
use std::alloc::Global;

fn rollback<I: IceAgent, D: DtlsInstance, S: Association, M: MediaSession, N: Ids>(
    rtc: &mut Rtc<I, D, S, M, N>,
    pending: SdpPendingOffer,
) -> Result<(), RtcError>
    ensures rolls_back { RollsBack (lent rtc.old.core) pending result rtc.new.core }
    ensures rows { length rtc.new.core.lines ≡ length rtc.old.core.lines }
    ensures channels { length rtc.new.core.channels.rows ≤ length rtc.old.core.channels.rows }
    ensures connection { rtc.new.transport ≡ rtc.old.transport }
{
    rtc.sdp_api().rollback(pending)
}

/// Has a peer roll the offer of a number back, if this side holds its token.
pub fn roll_offer_back<I: IceAgent, D: DtlsInstance, S: Association, M: MediaSession, N: Ids>(
    alloc: Global,
    rtc: &mut Rtc<I, D, S, M, N>,
    sdps: &mut Vec<Kept>,
    at: Side,
    token: u32,
) -> Reply<M::E>
    ensures connection { rtc.new.transport ≡ rtc.old.transport }
    ensures rolls_back { StepRollsBack (meanings I.ice D.dtls S.association M.media N.ids)
        token (held_token sdps.old.items at token)
        rtc.old.core sdps.old.items result.outcome result.table rtc.new.core sdps.new.items }
{
    let Ok(room) = room_for(alloc, rtc, 0, 0) else {
        return reply_no_memory();
    };
    let Some(pending) = take_token(sdps, at, token) else {
        return reply_with(Outcome::NoSuch, room, rtc);
    };
    match rollback(rtc, pending) {
        Ok(()) => reply_with(Outcome::Done, room, rtc),
        Err(error) => reply_with(Outcome::Refused(error), room, rtc),
    }
}
