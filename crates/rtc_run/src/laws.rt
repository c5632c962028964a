//! Laws of sound replies, and of runs.
ghost use Rattle.rtc_peer_core.specs.Meanings.{meanings};
ghost use Rattle.rtc_run.specs.Completeness.{FaultlessAnswersPass, FaultlessOffersPass, FaultsAreCounted};
ghost use Rattle.rtc_run.specs.Completeness.{ForeignAnswersPass, ForeignOffersPass};

use rtc_peer::{Association, DtlsInstance, IceAgent, Ids, MediaSession};

/// An offer or answer for which no cause of refusal holds is accepted, also one that anybody wrote, unless memory runs out, or the DTLS
/// part or the association fails.
pub fn faultless_descriptions_pass<E>()
    ensures offers { FaultlessOffersPass E }
    ensures answers { FaultlessAnswersPass E }
    ensures foreign_offers { ForeignOffersPass E }
    ensures foreign_answers { ForeignAnswersPass E }
{}

/// No reply of a run reports a fault if no DTLS part, no association and no media part of its pair counted one.
pub fn faults_are_counted<I: IceAgent, D: DtlsInstance, S: Association, M: MediaSession, N: Ids>()
    ensures { FaultsAreCounted (meanings I.ice D.dtls S.association M.media N.ids) I.stun }
{}
