//! That a closed peer stays closed.
ghost use Rattle.std.specs.Prelude.{◌≡◌, List};
ghost use Rattle.rtc_peer_core.specs.declared.phase.Phase.TheVariants.{Closed};
ghost use Rattle.rtc_peer_core.specs.Meanings.{meanings};
ghost use Rattle.rtc_peer_transport.specs.declared.polled_peer.PolledPeer.{PolledPeer as Polled};
ghost use Rattle.rtc_peer_laws.specs.PeerCalls.{CalledInTurn, ChannelCalled, DirectlyCalled, LoanCalled, MediaCalled, NegotiationCalled};
ghost use Rattle.rtc_peer_laws.specs.PeerCalls.{PeerCalled, TransportCalled};

use rtc_parts::{Association, DtlsInstance, IceAgent, Ids, MediaSession};

/// No public call makes a closed peer alive, and no number of them one after the other: it is closed behind each poll,
/// input and close, each call on a data channel, all that negotiates, candidates that are added, each call without
/// session descriptions, and each stream or writer that is lent, whatever is written there.
pub fn closed_peers_stay_closed<
    I: IceAgent,
    D: DtlsInstance,
    S: Association,
    M: MediaSession,
    N: Ids,
>()
    ensures transport { (p q : Polled I D S M N) → TransportCalled (meanings I.ice D.dtls S.association M.media N.ids) p q
        → p.core.phase ≡ Closed → q.core.phase ≡ Closed }
    ensures channels { (p q : Polled I D S M N) → ChannelCalled (meanings I.ice D.dtls S.association M.media N.ids) p q
        → p.core.phase ≡ Closed → q.core.phase ≡ Closed }
    ensures negotiation { (p q : Polled I D S M N)
        → NegotiationCalled (meanings I.ice D.dtls S.association M.media N.ids) p.core q.core
        → p.core.phase ≡ Closed → q.core.phase ≡ Closed }
    ensures direct { (p q : Polled I D S M N) → DirectlyCalled (meanings I.ice D.dtls S.association M.media N.ids) p q
        → p.core.phase ≡ Closed → q.core.phase ≡ Closed }
    ensures media { (p q : Polled I D S M N) → MediaCalled (meanings I.ice D.dtls S.association M.media N.ids) p q
        → p.core.phase ≡ Closed → q.core.phase ≡ Closed }
    ensures loans { (p q : Polled I D S M N) → LoanCalled (meanings I.ice D.dtls S.association M.media N.ids) p q
        → p.core.phase ≡ Closed → q.core.phase ≡ Closed }
    ensures calls { (p q : Polled I D S M N) → PeerCalled (meanings I.ice D.dtls S.association M.media N.ids) p q
        → p.core.phase ≡ Closed → q.core.phase ≡ Closed }
    ensures in_turn { (p q : Polled I D S M N) (between : List (Polled I D S M N))
        → CalledInTurn (meanings I.ice D.dtls S.association M.media N.ids) p between q
        → p.core.phase ≡ Closed → q.core.phase ≡ Closed }
{}
