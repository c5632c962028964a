//! Runs of pairs.
ghost use Rattle.std.specs.Prelude.{◌≡◌, ◌+◌, ◌<◌, ◌≤◌, ◌^◌, ◌-◌, [], length, IfOk, OnErr, vec_capacity};
ghost use Rattle.rtc_run_laws.specs.Crossed.{CrossedOffersMeet};
ghost use Rattle.rtc_run_history.specs.DrawnInRuns.{AllPlain, DrawsUnused, HaveNoLines};
ghost use Rattle.rtc_run_history.specs.Sizes.{steps_size};
ghost use Rattle.rtc_run_history.specs.Fresh.{ArePeersFormed, IsFresh};
ghost use Rattle.rtc_run_history.specs.Runs.{Runs};
ghost use Rattle.rtc_run_history.specs.Signalled.{AllReadBack};
ghost use Rattle.rtc_run_laws.specs.Drains.{AreUndriven, DrainsWithin};
ghost use Rattle.rtc_peer_core.specs.Meanings.{meanings};

use crate::Pair;
use crate::moments::read_moment;
use rtc_peer::{Association, DtlsInstance, IceAgent, Ids, MediaSession};
use rtc_run_history::{Reply, Step};
use std::alloc::{AllocError, Global};

/// Performs steps in order, each by the public calls of the acting peer, and returns a reply for each.
///
/// Offers and answers reach the other peer as signalling delivers them: written, and read again. They are read as they
/// were written if each SSRC was unused when it was drawn. On glare of a polite peer and an impolite one that are in
/// step, a rollback brings the two together (RFC 3264, section 4). A drain shows at most as many outputs as its peer
/// weighs before it. Room for the replies is made first, so an error leaves both peers unchanged.
pub fn run_pair<I: IceAgent, D: DtlsInstance, S: Association, M: MediaSession, N: Ids>(
    alloc: Global,
    pair: &mut Pair<I, D, S, M, N>,
    steps: &[Step],
) -> Result<Vec<Reply<M::E>>, AllocError>
    requires fresh { IsFresh (meanings I.ice D.dtls S.association M.media N.ids) pair.old }
    requires sizes { steps_size steps.now < 2 ^ 32 }
    ensures runs { IfOk result (λ replies. Runs (meanings I.ice D.dtls S.association M.media N.ids) I.stun
        pair.old steps.now replies.items pair.new) }
    ensures read_back { ArePeersFormed (meanings I.ice D.dtls S.association M.media N.ids) pair.old
        → IfOk result (λ replies. AllReadBack pair.new.sdps) }
    ensures plain { ArePeersFormed (meanings I.ice D.dtls S.association M.media N.ids) pair.old
        → HaveNoLines (meanings I.ice D.dtls S.association M.media N.ids) pair.old
        → IfOk result (λ replies. (run : Runs (meanings I.ice D.dtls S.association M.media N.ids) I.stun
        pair.old steps.now replies.items pair.new)
        → DrawsUnused (meanings I.ice D.dtls S.association M.media N.ids) I.stun pair.old steps.now replies.items pair.new run
        → AllPlain pair.new.sdps) }
    ensures crossed { ArePeersFormed (meanings I.ice D.dtls S.association M.media N.ids) pair.old
        → CrossedOffersMeet (meanings I.ice D.dtls S.association M.media N.ids) I.stun pair.old }
    ensures drains { AreUndriven (meanings I.ice D.dtls S.association M.media N.ids) pair.old
        → IfOk result (λ replies. (run : Runs (meanings I.ice D.dtls S.association M.media N.ids) I.stun
        pair.old steps.now replies.items pair.new)
        → DrainsWithin (meanings I.ice D.dtls S.association M.media N.ids) I.stun pair.old run.past pair.new) }
    ensures untouched { OnErr result (pair.new ≡ pair.old) }
{
    let mut replies = Vec::with_capacity(alloc, steps.len())?;
    for step in steps {
        read_moment(step);
        let reply = pair.perform(step);
        replies.push_reserved(reply);
    }
    Ok(replies)
}
