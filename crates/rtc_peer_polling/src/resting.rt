//! A visit that met nothing is followed by another.
ghost use Rattle.rtc_parts.specs.declared.reason.Reason.{Reason as Why};
ghost use Rattle.rtc_peer_core.specs.Meanings.{meanings};
ghost use Rattle.rtc_peer_transport.specs.declared.met.Met.TheVariants.{Nothing};
ghost use Rattle.rtc_peer_transport.specs.declared.polled_peer.PolledPeer.{PolledPeer as Polled};
ghost use Rattle.rtc_peer_polling.specs.Walk.{VisitsParts, with_reason};

use rtc_parts::{Association, DtlsInstance, IceAgent, Ids, MediaSession};

/// A visit of the parts that met nothing leaves a peer of which a visit meets nothing and changes nothing, whatever is
/// kept as the reason of the last timeout.
pub fn visits_rest<I: IceAgent, D: DtlsInstance, S: Association, M: MediaSession, N: Ids>()
    ensures { (p q : Polled I D S M N) (reason : Why)
        → VisitsParts (meanings I.ice D.dtls S.association M.media N.ids) p Nothing q
        → VisitsParts (meanings I.ice D.dtls S.association M.media N.ids) (with_reason reason q) Nothing (with_reason reason q) }
{}
