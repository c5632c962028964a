//! Offers and answers that anybody wrote.
ghost use Rattle.std.specs.Prelude.{◌≡◌, ◌<◌, ◌^◌, length};
ghost use Rattle.rtc_run_history.specs.PairState.{held_token};
ghost use Rattle.rtc_run_history.specs.Performs.{StepAcceptsAnswer, StepAcceptsOffer};
ghost use Rattle.rtc_run_history.specs.Signalled.{foreign};
ghost use Rattle.rtc_peer_core.specs.Meanings.{meanings};
ghost use Rattle.rtc_run_steps.specs.Brings.{Brings};

use crate::accepting::{accept_delivered_answer, accept_delivered_offer, has_token};
use crate::brought::Brought;
use crate::{reply_no_memory, reply_no_such, reply_unread};
use rtc_peer::{Association, DtlsInstance, IceAgent, Ids, MediaSession, Rtc};
use rtc_run_history::{Kept, Reply, Side};
use rtc_sdp_reader::read;
use rtc_sdp_values::SdpError;
use std::alloc::Global;

// What arrives of a text that anybody wrote.
#[tactic(auto, unfolding(rtc_run_history::specs::Signalled::foreign))]
fn bring_foreign(alloc: Global, text: &str) -> Brought
    ensures { Brings result (foreign text.now) }
{
    match read(alloc, text) {
        Ok(delivered) => Brought::Readable(delivered),
        Err(SdpError::Parse(line)) => Brought::Unreadable(line),
        Err(SdpError::Inconsistent(_)) => Brought::Alloc,
        Err(SdpError::Alloc) => Brought::Alloc,
    }
}

/// Delivers an offer that anybody wrote to a peer, which accepts or refuses it. What cannot be read does not reach the peer.
pub fn accept_foreign_offer<I: IceAgent, D: DtlsInstance, S: Association, M: MediaSession, N: Ids>(
    alloc: Global,
    rtc: &mut Rtc<I, D, S, M, N>,
    sdps: &mut Vec<Kept>,
    at: Side,
    text: &str,
) -> Reply<M::E>
    requires count { length sdps.old.items < 2 ^ 32 }
    ensures connection { rtc.new.transport ≡ rtc.old.transport }
    ensures accepts { StepAcceptsOffer (meanings I.ice D.dtls S.association M.media N.ids)
        at (foreign text.now) rtc.old.core sdps.old.items result.outcome result.table rtc.new.core sdps.new.items }
{
    match bring_foreign(alloc, text) {
        Brought::NotMade => reply_no_such(alloc, rtc),
        Brought::Unreadable(line) => reply_unread(alloc, rtc, line),
        Brought::Readable(delivered) => accept_delivered_offer(alloc, rtc, sdps, at, delivered),
        Brought::Alloc => reply_no_memory(),
    }
}

/// Delivers an answer that anybody wrote to a peer, which accepts or refuses it with the token of a number. What cannot
/// be read does not reach the peer, and the token is kept.
pub fn accept_foreign_answer<I: IceAgent, D: DtlsInstance, S: Association, M: MediaSession, N: Ids>(
    alloc: Global,
    rtc: &mut Rtc<I, D, S, M, N>,
    sdps: &mut Vec<Kept>,
    at: Side,
    token: u32,
    text: &str,
) -> Reply<M::E>
    ensures connection { rtc.new.transport ≡ rtc.old.transport }
    ensures accepts { StepAcceptsAnswer (meanings I.ice D.dtls S.association M.media N.ids)
        token (held_token sdps.old.items at token) (foreign text.now)
        rtc.old.core sdps.old.items result.outcome result.table rtc.new.core sdps.new.items }
{
    if !has_token(sdps.as_slice(), at, token) {
        return reply_no_such(alloc, rtc);
    }
    match bring_foreign(alloc, text) {
        Brought::NotMade => reply_no_such(alloc, rtc),
        Brought::Unreadable(line) => reply_unread(alloc, rtc, line),
        Brought::Readable(delivered) => {
            accept_delivered_answer(alloc, rtc, sdps, at, token, delivered)
        }
        Brought::Alloc => reply_no_memory(),
    }
}
